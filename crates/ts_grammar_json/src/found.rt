//! The members of an object that the format names, found in one pass over the object.
ghost use Rattle.std.specs.Prelude.{◌≡◌, option_map};
ghost use Rattle.ts_ojson.specs.Json.{json_of};
ghost use Rattle.ts_grammar_json.specs.Members.{members_json, find};
ghost use Rattle.ts_grammar_json.specs.Rules.{looked};
ghost use Rattle.ts_grammar_json.specs.File.{file_members};
ghost use Rattle.ts_grammar_json.specs.Found.{json_at, noted as noted_of, looked_of, looked_and, file_of, file_and};

use ts_ojson::{OJson, OText};

/// The members that rules have, and entries of `precedences`.
#[derive(Clone, Copy, Debug)]
pub(crate) struct Found<'a> {
    pub kind: Option<&'a OJson>,
    pub value: Option<&'a OJson>,
    pub flags: Option<&'a OJson>,
    pub name: Option<&'a OJson>,
    pub members: Option<&'a OJson>,
    pub content: Option<&'a OJson>,
    pub named: Option<&'a OJson>,
}

/// The member that was found before, or else this one where its name is the one that is wanted.
fn noted<'a>(
    before: Option<&'a OJson>,
    wanted: &str,
    name: &str,
    value: &'a OJson,
) -> Option<&'a OJson>
    ensures { json_at result
        ≡ noted_of (json_at before.entry) wanted.now name.now (json_of value.now) }
{
    if before.is_none() && name == wanted {
        Some(value)
    } else {
        before
    }
}

impl<'a> Found<'a> {
    /// The members of an object, the first of each name.
    pub(crate) fn of(members: &'a [(OText, OJson)]) -> Found<'a>
        ensures { looked_of result ≡ looked (members_json members.now) }
    {
        let mut found = Found {
            kind: None,
            value: None,
            flags: None,
            name: None,
            members: None,
            content: None,
            named: None,
        };
        for member in members {
            found = found.and(member.0.text(), &member.1);
        }
        found
    }

    fn and(self, name: &str, value: &'a OJson) -> Found<'a>
        ensures { looked_of result
            ≡ looked_and (looked_of self.entry) name.now (json_of value.now) }
    {
        Found {
            kind: noted(self.kind, "type", name, value),
            value: noted(self.value, "value", name, value),
            flags: noted(self.flags, "flags", name, value),
            name: noted(self.name, "name", name, value),
            members: noted(self.members, "members", name, value),
            content: noted(self.content, "content", name, value),
            named: noted(self.named, "named", name, value),
        }
    }
}

/// The members of a grammar file.
#[derive(Clone, Copy, Debug)]
pub(crate) struct FileFound<'a> {
    pub name: Option<&'a OJson>,
    pub rules: Option<&'a OJson>,
    pub word: Option<&'a OJson>,
    pub extras: Option<&'a OJson>,
    pub conflicts: Option<&'a OJson>,
    pub precedences: Option<&'a OJson>,
    pub externals: Option<&'a OJson>,
    pub reserved: Option<&'a OJson>,
    pub inline: Option<&'a OJson>,
    pub supertypes: Option<&'a OJson>,
}

impl<'a> FileFound<'a> {
    /// The members of an object, the first of each name.
    pub(crate) fn of(members: &'a [(OText, OJson)]) -> FileFound<'a>
        ensures { file_of result ≡ file_members (members_json members.now) }
    {
        let mut found = FileFound {
            name: None,
            rules: None,
            word: None,
            extras: None,
            conflicts: None,
            precedences: None,
            externals: None,
            reserved: None,
            inline: None,
            supertypes: None,
        };
        for member in members {
            found = found.and(member.0.text(), &member.1);
        }
        found
    }

    fn and(self, key: &str, value: &'a OJson) -> FileFound<'a>
        ensures { file_of result ≡ file_and (file_of self.entry) key.now (json_of value.now) }
    {
        FileFound {
            name: noted(self.name, "name", key, value),
            rules: noted(self.rules, "rules", key, value),
            word: noted(self.word, "word", key, value),
            extras: noted(self.extras, "extras", key, value),
            conflicts: noted(self.conflicts, "conflicts", key, value),
            precedences: noted(self.precedences, "precedences", key, value),
            externals: noted(self.externals, "externals", key, value),
            reserved: noted(self.reserved, "reserved", key, value),
            inline: noted(self.inline, "inline", key, value),
            supertypes: noted(self.supertypes, "supertypes", key, value),
        }
    }
}

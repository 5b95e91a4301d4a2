//! The names of predicates: a name goes in, and what a predicate of that name asks comes out.
ghost use Rattle.std.specs.Prelude.{◌≡◌, ◌^◌, ◌≤◌, ◌<◌, length, position, IfSome};
ghost use Rattle.std.specs.Str.{bytes_eq};
ghost use Rattle.ts_query_names.specs.Asking.{asking, known_asking, host_place, host_asking, asking_of};

use ts_base::Str;

/// What the texts of a capture's nodes are compared with.
#[derive(Debug, Clone, Copy, PartialEq, Eq)]
pub enum Relation {
    /// A text, or the texts of another capture's nodes.
    Equal,
    /// What an expression finds.
    Found,
    /// Some texts.
    OneOf,
    /// What a host knows, by its place in the list of hosts.
    Host(u32),
}

/// What a predicate asks by its name.
#[derive(Debug, Clone, Copy, PartialEq, Eq)]
pub struct Asking {
    pub relation: Relation,
    pub negated: bool,
    /// Whether one text, or one pair, is enough.
    pub some: bool,
}

fn asks(relation: Relation, negated: bool, some: bool) -> Asking
    ensures { result ≡ asking relation negated some }
{
    Asking {
        relation,
        negated,
        some,
    }
}

/// Of a name that every query knows.
fn known(name: &str) -> Option<Asking>
    ensures { result ≡ known_asking name.now }
{
    match name {
        "eq?" => Some(asks(Relation::Equal, false, false)),
        "not-eq?" => Some(asks(Relation::Equal, true, false)),
        "any-eq?" => Some(asks(Relation::Equal, false, true)),
        "any-not-eq?" => Some(asks(Relation::Equal, true, true)),
        "match?" => Some(asks(Relation::Found, false, false)),
        "not-match?" => Some(asks(Relation::Found, true, false)),
        "any-match?" => Some(asks(Relation::Found, false, true)),
        "any-not-match?" => Some(asks(Relation::Found, true, true)),
        "any-of?" => Some(asks(Relation::OneOf, false, false)),
        "not-any-of?" => Some(asks(Relation::OneOf, true, false)),
        _ => None,
    }
}

/// The place of a name among names; of equal ones it is the first.
pub fn place_of(names: &[Str], name: &str) -> Option<usize>
    ensures place { result ≡ position (bytes_eq name.now) names.now }
    ensures within { IfSome result (λ place. place < length names.now) }
{
    names.iter().position(|other| name == other.text())
}

/// Of a host's name.
fn of_host(hosts: &[Str], name: &str) -> Option<Asking>
    requires few { length hosts.now ≤ 2 ^ 32 }
    ensures { result ≡ host_asking (host_place hosts.now name.now) }
{
    match place_of(hosts, name) {
        Some(place) => Some(asks(Relation::Host(place as u32), false, false)),
        None => None,
    }
}

/// What a predicate asks by its name: what every query knows, or else what a host does.
pub fn asking_of(hosts: &[Str], name: &str) -> Option<Asking>
    requires few { length hosts.now ≤ 2 ^ 32 }
    ensures { result ≡ asking_of hosts.now name.now }
{
    match known(name) {
        Some(known) => Some(known),
        None => of_host(hosts, name),
    }
}

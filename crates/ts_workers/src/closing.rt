//! Shelves in, once no client has a pass of one; the journals out.
ghost use Rattle.std.specs.Prelude.{◌≡◌, ◌≤◌, ℕ, [], length, slice_get, Some, vec_capacity};
ghost use Rattle.ts_workers.specs.declared.front.Front.{Front as AnyFront};
ghost use Rattle.ts_workers.specs.Joins.{AreOnShelves, AreClosed};

use crate::front::Front;
use ts_base::List;
use ts_docs::Book;
use ts_shelf::Shelf;

/// The journals of the shelves, in their order. The list of journals has room for them.
pub(crate) fn closed(
    shelves: Vec<Shelf<Book>>,
    fronts: Vec<Front>,
    mut books: Vec<Book>,
) -> List<Book>
    requires fronts { AreOnShelves shelves.items fronts.items }
    requires alone { (document : ℕ) (f : AnyFront) → slice_get fronts.items document ≡ Some f
        → f.pass.knows.out ≡ 0 }
    requires none { books.items ≡ [] }
    requires room { length shelves.items ≤ vec_capacity books }
    ensures { AreClosed fronts.items result }
{
    for (shelf, front) in shelves.into_iter().zip(fronts) {
        if books.push(shelf.close(front.pass)).is_err() {
            unreachable!();
        }
    }
    List::from_vec(books)
}

//! What holds of all texts. The laws run nothing: a caller names them for their contract.
ghost use Rattle.std.specs.Prelude.{◌≡◌, ◌++◌, true, List, ℕ, IfOk};
ghost use Rattle.std.specs.List.{flat_map, list_any};
ghost use Rattle.geo_grammar.specs.Faults.{says_too_long};
ghost use Rattle.geo_grammar.specs.Protocol.{items_of};
ghost use Rattle.geo_grammar.specs.declared.item.Item.{Item};

use crate::item::Item;
use crate::reader::Reader;
use std::alloc::{AllocError, Global};

/// What comes behind a text takes none of its items back, and adds to them alone.
pub fn items_of_longer()
    ensures { (text more : List ℕ) → (items : List Item) × (items_of (text ++ more) ≡ items_of text ++ items) }
{}

/// Behind a line that is too long nothing is read.
pub fn silent_behind_long_line()
    ensures { (text more : List ℕ) → list_any says_too_long (items_of text) ≡ true → items_of (text ++ more) ≡ items_of text }
{}

/// All items of a text that comes in these pieces: those of the pieces joined, wherever they are split.
pub fn read_all(alloc: Global, pieces: &[Vec<u8>]) -> Result<Vec<Item>, AllocError>
    ensures { IfOk result (λ out. out.items ≡ items_of (flat_map (λ piece. piece.items) pieces.now)) }
{
    let mut reader = Reader::new(alloc);
    let mut out = Vec::new(alloc);
    for piece in pieces {
        let mut items = reader.feed(piece.as_slice())?;
        out.append(&mut items)?;
    }
    Ok(out)
}

//! The items of a model.

ghost use Rattle.std.specs.Prelude.{◌≡◌};
ghost use Rattle.dp_grammar.specs.Brackets.{Plain};
ghost use Rattle.dp_grammar.specs.Choice.{begins};
ghost use Rattle.fz_model.specs.ModelText.{begins_item};
ghost use Rattle.fz_model.specs.Words.{Key};
ghost use Rattle.fz_items.specs.Wholes.{ItemsRead};

use crate::any_item::item;
use crate::declared::Declared;
use crate::source::{Seen, Source};
use crate::stop::Stop;
use fz_token::{Keyword, TokenKind};
use std::alloc::Global;

/// Whether an item begins with the keyword.
fn is_item_word(keyword: Keyword) -> bool
    ensures { result ≡ begins_item (Plain (Key keyword)) }
{
    match keyword {
        Keyword::Predicate
        | Keyword::Int
        | Keyword::Bool
        | Keyword::Set
        | Keyword::Array
        | Keyword::Var => true,
        _ => false,
    }
}

/// Whether an item comes.
fn is_item(source: &Source) -> bool
    ensures { result ≡ begins begins_item source.now.left }
{
    match source.word() {
        Some(
            Seen {
                kind: TokenKind::Keyword(keyword),
                ..
            },
        ) => is_item_word(keyword),
        _ => false,
    }
}

/// All items that come.
pub fn items(alloc: Global, source: &mut Source) -> Result<Declared, Stop>
    ensures reads { ItemsRead source.old.left result source.new.left }
    ensures text { source.new.text ≡ source.old.text }
{
    let mut declared = Declared::new(alloc);
    'items: while is_item(source) {
        declared = item(alloc, source, declared)?;
    }
    Ok(declared)
}

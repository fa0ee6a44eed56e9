//! Items one after the other.

ghost use Rattle.std.specs.Prelude.{◌≡◌, ◌∷◌, ℕ, IfOk, List as Listed};
ghost use Rattle.sour_lexer.specs.Placed.{Placed, all_placed};
ghost use Rattle.sour_raw.specs.Spelling.{after_all};
ghost use Rattle.sour_raw.specs.Combinators.{Out, Reading, Items, next, refuse as refused, repeated as repeated_at};
ghost use Rattle.sour_reader.specs.Given.{Fails, Gives};
ghost use Rattle.sour_reader.specs.Room.{is_full as has_all};

use crate::stop::Stop;
use crate::tokens::Rest;
use crate::variables::Variables;
use sour_raw::Kind;
use sour_syntax::List;
use std::alloc::{AllocFailed, Global};

/// What may be read again and again.
pub(crate) trait Item {
    /// What an item is read as.
    type Out: Drop;

    /// How items are read.
    ghost items: { Self → Items (Listed (Listed ℕ)) Self.Out };

    /// Whether one comes next.
    fn comes(&self, tokens: Rest<'_>) -> bool
        ensures { result ≡ next (items self.now).first (all_placed tokens.now) };

    /// An item.
    fn read<'a>(
        &self,
        alloc: Global,
        variables: &mut Variables,
        tokens: Rest<'a>,
    ) -> Result<(Self::Out, Rest<'a>), Stop<'a>>
        ensures read { Gives result ((items self.now).item variables.old) tokens.now }
        ensures variables { IfOk result (λ x. variables.new ≡ (items self.now).step variables.old x.0) };

    /// The fault of an item that is one too many.
    fn refuse<'a>(&self, alloc: Global, variables: &mut Variables, tokens: Rest<'a>) -> Stop<'a>
        ensures { Fails result ((items self.now).over variables.old (all_placed tokens.now)) };
}

/// The fault of an item that is one too many, where it was read so.
pub(crate) fn too_many<'a, X: Drop>(
    tokens: Rest<'a>,
    read: Result<(X, Rest<'a>), Stop<'a>>,
) -> Stop<'a>
    ensures { (reading : Reading X) → Gives read.entry reading tokens.now → Fails result (refused (all_placed tokens.now) (reading (all_placed tokens.now))) }
{
    match read {
        Ok(_) => Stop::At(Kind::Limit, tokens),
        Err(Stop::Memory) => Stop::Memory,
        Err(Stop::At(kind, rest)) => {
            if rest.len() == tokens.len() {
                Stop::At(kind, tokens)
            } else {
                Stop::At(Kind::Limit, tokens)
            }
        }
    }
}

/// Whether there are as many as there is room for.
fn is_full(room: Option<usize>, count: usize) -> bool
    ensures { result ≡ has_all room count }
{
    match room {
        Some(room) => room <= count,
        None => false,
    }
}

/// The tokens as they are. A loop may hand on what a call returns as a whole, and not what it takes from a pair.
fn as_they_are<'a>(tokens: Rest<'a>) -> Rest<'a>
    ensures { result.now ≡ tokens.now }
{
    tokens
}

/// Items as long as another comes, at most as many as there is room for.
pub(crate) fn repeated<'a, I: Item>(
    alloc: Global,
    each: &I,
    room: Option<usize>,
    variables: &mut Variables,
    tokens: Rest<'a>,
) -> Result<(List<I::Out>, Rest<'a>), Stop<'a>>
    ensures read { Gives result (repeated_at (I.items each.now) room variables.old) tokens.now }
    ensures variables { IfOk result (λ x. variables.new ≡ after_all (I.items each.now).step variables.old x.0) }
{
    let mut items = List::new(alloc);
    let mut rest = tokens;
    for _ in 0..tokens.len() {
        if !each.comes(rest) {
            break;
        }
        if is_full(room, items.len()) {
            return Err(each.refuse(alloc, variables, rest));
        }
        let (item, after) = each.read(alloc, variables, rest)?;
        items.push(item)?;
        rest = as_they_are(after);
    }
    Ok((items, rest))
}

/// Puts one before others.
pub(crate) fn before<X: Drop>(first: X, others: List<X>) -> Result<List<X>, AllocFailed<X>>
    ensures { IfOk result (λ all. all ≡ first ∷ others) }
{
    let mut all = others.into_vec();
    all.insert(0, first)?;
    Ok(List::from_vec(all))
}

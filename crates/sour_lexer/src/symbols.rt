//! The symbols, by their bytes.

ghost use Rattle.std.specs.Prelude.{◌≡◌, ◌<◌, ◌≤◌, ◌∷◌, [], take, IfSome, IfNone};
ghost use Rattle.sour_tokens.specs.declared.symbols.Symbol.{Symbol};
ghost use Rattle.sour_tokens.specs.Symbol.{symbol_spelling};

use sour_tokens::Symbol;

/// The longest symbol that begins with the first byte and perhaps goes on with the second, and its length.
pub(crate) fn symbol_of(first: u8, second: u8) -> Option<(Symbol, usize)>
    ensures spelled { IfSome result (λ found. take found.1 (first ∷ second ∷ []) ≡ symbol_spelling found.0) }
    ensures some { IfSome result (λ found. 0 < found.1) }
    ensures within { IfSome result (λ found. found.1 ≤ 2) }
    ensures longest { IfSome result (λ found. (symbol : Symbol) →
        first ∷ second ∷ [] ≡ symbol_spelling symbol → found.1 ≡ 2) }
    ensures none { IfNone result ((symbol : Symbol) → first ∷ [] ≡ symbol_spelling symbol → ⊥) }
    ensures no_pair { IfNone result ((symbol : Symbol) → first ∷ second ∷ [] ≡ symbol_spelling symbol → ⊥) }
{
    match of_pair(first, second) {
        Some(symbol) => Some((symbol, 2)),
        None => of_byte(first).map(|symbol| (symbol, 1)),
    }
}

/// The symbol of these two bytes.
fn of_pair(first: u8, second: u8) -> Option<Symbol>
    ensures found { IfSome result (λ symbol. first ∷ second ∷ [] ≡ symbol_spelling symbol) }
    ensures none { IfNone result ((symbol : Symbol) → first ∷ second ∷ [] ≡ symbol_spelling symbol → ⊥) }
{
    match (first, second) {
        (b'<', b'-') => Some(Symbol::Arrow),
        (b'=', b'=') => Some(Symbol::EqualEqual),
        (b'!', b'=') => Some(Symbol::NotEqual),
        (b'<', b'=') => Some(Symbol::LessEqual),
        (b'>', b'=') => Some(Symbol::GreaterEqual),
        (b'&', b'&') => Some(Symbol::AndAnd),
        (b'|', b'|') => Some(Symbol::OrOr),
        _ => None,
    }
}

/// The symbol of this one byte.
fn of_byte(byte: u8) -> Option<Symbol>
    ensures found { IfSome result (λ symbol. byte ∷ [] ≡ symbol_spelling symbol) }
    ensures none { IfNone result ((symbol : Symbol) → byte ∷ [] ≡ symbol_spelling symbol → ⊥) }
{
    match byte {
        b'<' => Some(Symbol::Less),
        b'>' => Some(Symbol::Greater),
        b'+' => Some(Symbol::Plus),
        b'-' => Some(Symbol::Minus),
        b'*' => Some(Symbol::Star),
        b'/' => Some(Symbol::Slash),
        b'%' => Some(Symbol::Percent),
        b'!' => Some(Symbol::Bang),
        b'=' => Some(Symbol::Equal),
        b'(' => Some(Symbol::OpenParen),
        b')' => Some(Symbol::CloseParen),
        b'[' => Some(Symbol::OpenBracket),
        b']' => Some(Symbol::CloseBracket),
        b',' => Some(Symbol::Comma),
        b':' => Some(Symbol::Colon),
        b';' => Some(Symbol::Semicolon),
        b'.' => Some(Symbol::Dot),
        b'&' => Some(Symbol::Ampersand),
        b'@' => Some(Symbol::At),
        _ => None,
    }
}

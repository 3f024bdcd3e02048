// The bytes of a flattened devicetree's structure block: big-endian words, names and tokens.

#![tactic(auto)]

ghost use Rattle.std.specs.Prelude.{◌≡◌, drop};
ghost use Rattle.fdt_tokens.specs.Devicetree.{joined, has_zero};
ghost use Rattle.fdt_tokens.specs.Bytes.{be32_at, starts_with};
ghost use Rattle.fdt_tokens.specs.Lex.{name_word, value_word, token_word, lex_word, is_done};

// Four bytes as a number, the highest first.
fn join(a: u8, b: u8, c: u8, d: u8) -> u32
    ensures { result ≡ joined a b c d }
{
    u32::from_be_bytes([a, b, c, d])
}

// The big-endian word at `at`; 0 where the slice ends before it does.
#[tactic(auto, unfolding(crate::specs::Bytes::be32_at))]
pub fn be32(s: &[u8], at: usize) -> u32
    ensures { result ≡ be32_at s.now at }
{
    match tail(s, at) {
        [a, b, c, d, ..] => join(*a, *b, *c, *d),
        _ => 0,
    }
}

// The bytes from `at` on; none where the slice ends before it.
fn tail(s: &[u8], at: usize) -> &[u8]
    ensures { result.now ≡ drop at s.now }
{
    s.get(at..).unwrap_or(&[])
}

// Whether a zero byte stands at or after `at`.
#[tactic(auto, using(crate::proofs::Laws::any_zero))]
pub fn terminated(s: &[u8], at: usize) -> bool
    ensures { result ≡ has_zero (drop at s.now) }
{
    tail(s, at).contains(&0)
}

// Whether the bytes of `text` stand at `at`.
#[tactic(auto, using(crate::proofs::Laws::starts_as))]
pub fn begins_with(s: &[u8], at: usize, text: &[u8]) -> bool
    ensures { result ≡ starts_with text.now (drop at s.now) }
{
    tail(s, at).starts_with(text)
}

// What the next four bytes of the structure block are part of: a token's number, a node's name, a property's length, the offset of its
// name (its length was read), or a value of which so many bytes are left. Then: after FDT_END, and after what is no token. (The last is a
// state and no None: words follow it as they follow the others, and it stays.)
#[derive(Clone, Copy)]
pub enum Lexer {
    Token,
    Name,
    Length,
    Offset(u32),
    Value(u32),
    Done,
    Broken,
}

// A token met, without FDT_NOP. A property is met with its length and the offset of its name, when its value comes next.
#[derive(Clone, Copy)]
pub enum Event {
    Begin,
    EndNode,
    Prop(u32, u32),
    End,
}

// What four bytes lead to, and the token that they complete.
#[derive(Clone, Copy)]
pub struct Lexed {
    pub lexer: Lexer,
    pub event: Option<Event>,
}

// Four bytes of a name with its zero byte and its padding. (Apart, as the definitions have them: a name and a value are judged byte by byte.)
#[tactic(auto, unfolding(crate::specs::Lex::name_word))]
fn name_word(a: u8, b: u8, c: u8, d: u8) -> Lexer
    ensures { result ≡ name_word a b c d }
{
    if d != 0 {
        if a == 0 || b == 0 || c == 0 {
            Lexer::Broken
        } else {
            Lexer::Name
        }
    } else if c != 0 {
        if a == 0 || b == 0 {
            Lexer::Broken
        } else {
            Lexer::Token
        }
    } else if b != 0 && a == 0 {
        Lexer::Broken
    } else {
        Lexer::Token
    }
}

// Four bytes of a value of which `left` bytes are left, with its padding.
#[tactic(auto, unfolding(crate::specs::Lex::value_word))]
fn value_word(left: u32, b: u8, c: u8, d: u8) -> Lexer
    ensures { result ≡ value_word left b c d }
{
    if 4 < left {
        return Lexer::Value(left - 4);
    }
    let padded = match left {
        4 => true,
        3 => d == 0,
        2 => c == 0 && d == 0,
        _ => b == 0 && c == 0 && d == 0,
    };
    if padded { Lexer::Token } else { Lexer::Broken }
}

#[tactic(auto, unfolding(crate::specs::Lex::token_word))]
fn token_word(word: u32) -> Lexed
    ensures { result ≡ token_word word }
{
    match word {
        1 => Lexed {
            lexer: Lexer::Name,
            event: Some(Event::Begin),
        },
        2 => Lexed {
            lexer: Lexer::Token,
            event: Some(Event::EndNode),
        },
        3 => Lexed {
            lexer: Lexer::Length,
            event: None,
        },
        4 => Lexed {
            lexer: Lexer::Token,
            event: None,
        },
        9 => Lexed {
            lexer: Lexer::Done,
            event: Some(Event::End),
        },
        _ => Lexed {
            lexer: Lexer::Broken,
            event: None,
        },
    }
}

// The next four bytes of the structure block.
#[tactic(auto, unfolding(crate::specs::Lex::lex_word))]
pub fn lex_word(lexer: Lexer, a: u8, b: u8, c: u8, d: u8) -> Lexed
    ensures { result ≡ lex_word lexer a b c d }
{
    match lexer {
        Lexer::Token => token_word(join(a, b, c, d)),
        Lexer::Name => Lexed {
            lexer: name_word(a, b, c, d),
            event: None,
        },
        Lexer::Length => Lexed {
            lexer: Lexer::Offset(join(a, b, c, d)),
            event: None,
        },
        Lexer::Offset(length) => Lexed {
            lexer: if length == 0 {
                Lexer::Token
            } else {
                Lexer::Value(length)
            },
            event: Some(Event::Prop(length, join(a, b, c, d))),
        },
        Lexer::Value(left) => Lexed {
            lexer: value_word(left, b, c, d),
            event: None,
        },
        Lexer::Done | Lexer::Broken => Lexed {
            lexer: Lexer::Broken,
            event: None,
        },
    }
}

// Whether FDT_END was read, and nothing after it.
#[tactic(auto, unfolding(crate::specs::Lex::is_done))]
pub fn is_done(lexer: Lexer) -> bool
    ensures { result ≡ is_done lexer }
{
    matches!(lexer, Lexer::Done)
}

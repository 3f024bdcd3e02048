// Little-endian 64-bit words in bytes that a host lends, numbered from 0. A word that the bytes end before reads 0 and takes no write.
// (No `Option`: the buffers of a host's calls have their lengths in their types, so that no word is missing there.)

#![tactic(auto)]

ghost use Rattle.std.specs.Prelude.{◌≡◌, [], ◌∷◌, ◌*◌, length};
ghost use Rattle.lent_words.specs.Words.{of_bytes, to_bytes, word_at, with_word, bytes_of, read_code, kept_code, Bytes};

// The lengths of results of so many words, in bytes.
pub const ONE_WORD: usize = 8;

pub const THREE_WORDS: usize = 24;

pub const SIX_WORDS: usize = 48;

// The number of eight bytes, the lowest first. (Byte by byte: as `first_chunk` or `try_into` a read takes two instructions more in the
// archive for buffers that are not aligned.)
fn get_eight(bytes: &[u8]) -> u64
    requires { length bytes.now ≡ 8 }
    ensures { result ≡ of_bytes bytes.now }
{
    u64::from_le_bytes([
        bytes[0], bytes[1], bytes[2], bytes[3], bytes[4], bytes[5], bytes[6], bytes[7],
    ])
}

// The word at a place.
#[tactic(auto, using(crate::proofs::Words::word_read, crate::proofs::Words::word_missing))]
pub fn get_word(bytes: &[u8], place: usize) -> u64
    ensures { result ≡ word_at bytes.now place }
{
    if bytes.len() / 8 <= place {
        return 0;
    }
    get_eight(&bytes[8 * place..8 * place + 8])
}

// Stores a number in eight bytes, the lowest first.
fn put_eight(bytes: &mut [u8], value: u64)
    requires { length bytes.old ≡ 8 }
    ensures { bytes.new ≡ to_bytes 8 value }
{
    if let Some(word) = bytes.first_chunk_mut::<8>() {
        *word = value.to_le_bytes();
    }
}

// Stores a word at a place.
#[tactic(auto, using(crate::proofs::Words::word_put, crate::proofs::Words::word_kept))]
pub fn put_word(bytes: &mut [u8], place: usize, value: u64)
    ensures { bytes.new ≡ with_word bytes.old place value }
{
    if place < bytes.len() / 8 {
        put_eight(&mut bytes[8 * place..8 * place + 8], value);
    }
}

// Says to callers what the checker knows of a slice alone: lent bytes are below 256, so that a word stored where it was read changes
// nothing. It reads a word that nobody uses, which compiles to nothing, and returns nothing.
pub fn are_bytes(bytes: &[u8])
    ensures { Bytes bytes.now }
{
    get_word(bytes, 0);
}

// A word as one of `limit` codes: any other word reads as 0. (No enum: what the codes mean is for the crates above to say.)
fn read_code(word: u64, limit: u64) -> u64
    ensures { result ≡ read_code limit word }
{
    if word < limit { word } else { 0 }
}

// The word to write for a code: one that reads as the code already stays.
#[tactic(auto, unfolding(crate::specs::Words::kept_code))]
pub fn kept_code(old: u64, limit: u64, code: u64) -> u64
    ensures { result ≡ kept_code limit old code }
{
    if read_code(old, limit) == code {
        old
    } else {
        code
    }
}

// A result of these words. (A type cannot say that it has eight bytes for each: the three functions below have the lengths in their types.)
fn put_words(res: &mut [u8], words: &[u64])
    requires { length res.old ≡ 8 * length words.now }
    ensures { res.new ≡ bytes_of words.now }
{
    for (place, word) in words.iter().enumerate() {
        put_word(res, place, *word);
    }
}

// A result of one word.
pub fn put_one_word(res: &mut [u8; ONE_WORD], value: u64)
    ensures { res.new ≡ bytes_of (value ∷ []) }
{
    put_words(res, &[value]);
}

// A result of three words.
pub fn put_three(res: &mut [u8; THREE_WORDS], first: u64, second: u64, third: u64)
    ensures { res.new ≡ bytes_of (first ∷ second ∷ third ∷ []) }
{
    put_words(res, &[first, second, third]);
}

// A result of six words.
pub fn put_six(res: &mut [u8; SIX_WORDS], values: [u64; 6])
    ensures { res.new ≡ bytes_of values }
{
    put_words(res, &values);
}

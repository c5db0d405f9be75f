// What single words decide: numbers below a count, shares, attributes.
ghost use Rattle.std.specs.Prelude.{◌≡◌, ◌<◌, ◌≤◌, ◌+◌, ◌%◌, ◌^◌, ◌∷◌, pos, ◌+ℤ◌, ◌-ℤ◌, ◌≤ℤ◌, nat_abs, sum, true, IfOk, FitsSigned, decimal};
ghost use Rattle.std.specs.Int.{w64};
ghost use Rattle.sel_forest.specs.Valid.{IsAttribute};
ghost use Rattle.sel_gen.specs.Sizes.{is_usable};
ghost use Rattle.sel_gen.specs.Made.{word, behind, taken, shared, attribute_by};

use itoa::Buffer;
use rand_core::utils::NextWord;
use rand_pcg::Lcg128Xsl64;
use sel_base::{List, Name, NoMemory, Range};
use sel_grammar::Attribute;
use std::alloc::Global;

/// The next word.
pub fn next(words: &mut Lcg128Xsl64) -> u64
    ensures word { result ≡ word words.old }
    ensures behind { words.new ≡ behind words.old }
{
    words.next_word()
}

/// A number below the count: the next word modulo it.
pub fn below(words: &mut Lcg128Xsl64, count: u64) -> u64
    requires { 0 < count }
    ensures number { result ≡ word words.old % count }
    ensures behind { words.new ≡ behind words.old }
{
    next(words) % count
}

/// What a leaf takes of the spare, where these leaves are behind it.
fn taken(others: &[u32], spare: u32, words: &mut Lcg128Xsl64) -> u32
    ensures taken { (result, words.new) ≡ taken others.now spare words.old }
    ensures within { result ≤ spare }
{
    if others.is_empty() {
        spare
    } else {
        below(words, spare as u64 + 1) as u32
    }
}

/// Puts the shares of leaves with these sizes: each leaf gets its size, and of the spare what a word
/// says, but the last one all that is left.
pub fn share_out(
    sizes: &[u32],
    spare: u32,
    words: &mut Lcg128Xsl64,
    shares: &mut Vec<u32>,
) -> Result<(), NoMemory>
    requires { sum sizes.now + spare < 2 ^ 32 }
    ensures { IfOk result (λ _. (shares.new.items, words.new) ≡ shared sizes.now spare words.old) }
{
    shares.clear();
    let mut left = spare;
    for (at, size) in sizes.iter().enumerate() {
        let more = taken(&sizes[at + 1..], left, words);
        shares.push(*size + more)?;
        left -= more;
    }
    Ok(())
}

/// How far the range's last number is from its first, which may be 2^64 - 1.
fn span(range: Range) -> u64
    requires { range.lo ≤ℤ range.hi }
    ensures span { pos result ≡ range.hi -ℤ range.lo }
    ensures size { result ≡ nat_abs (range.hi -ℤ range.lo) }
{
    (range.hi as i128 - range.lo as i128) as u64
}

/// The word modulo one more than the limit, which may be the greatest word.
fn up_to(limit: u64, word: u64) -> u64
    ensures number { result ≡ word % (limit + 1) }
    ensures within { result ≤ limit }
{
    (word as u128 % (limit as u128 + 1)) as u64
}

/// The number of the range that the word gives.
fn number_in(range: Range, word: u64) -> i64
    requires { range.lo ≤ℤ range.hi }
    ensures { result ≡ range.lo +ℤ pos (word % (nat_abs (range.hi -ℤ range.lo) + 1)) }
{
    let offset = up_to(span(range), word);
    (range.lo as i128 + offset as i128) as i64
}

/// `s` and the number in decimal.
fn symbol(alloc: Global, number: u64) -> Result<Name, NoMemory>
    ensures { IfOk result (λ name. name ≡ 115 ∷ decimal number) }
{
    let mut buffer = Buffer::new();
    let mut bytes = Vec::new(alloc);
    bytes.push(b's')?;
    bytes.extend_from_slice(buffer.format(number).as_bytes())?;
    Ok(List::from_vec(bytes))
}

/// The attribute that the word gives: a number of the range, where there is one, and else in one of
/// four cases a symbol, `s0` to `s99`, or a number from -4,096 to 4,095.
pub fn attribute(alloc: Global, range: &Option<Range>, word: u64) -> Result<Attribute, NoMemory>
    requires { is_usable range.now ≡ true }
    ensures by_word { IfOk result (λ attribute. attribute ≡ attribute_by range.now word) }
    ensures lawful { IfOk result (λ attribute. IsAttribute attribute) }
{
    match range {
        Some(range) => Ok(Attribute::Number(number_in(*range, word))),
        None => {
            if word % 4 == 0 {
                let symbol = symbol(alloc, word / 4 % 100)?;
                Ok(Attribute::Symbol(symbol))
            } else {
                Ok(Attribute::Number((word / 4 % 8_192) as i64 - 4_096))
            }
        }
    }
}

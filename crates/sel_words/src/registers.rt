// The names of registers.
ghost use Rattle.std.specs.Prelude.{◌≡◌, map, [], ◌∷◌, option_map, IfOk, bytes_eq, codes};
ghost use Rattle.std.specs.List.{list_all, list_any};
ghost use Rattle.std.specs.Char.{is_ascii_alphanumeric};
ghost use Rattle.sel_words.specs.Found.{values_in};
ghost use Rattle.sel_words.specs.Registers.{register_names, is_register, are_different, are_registers, given_registers, default_registers};

use clap::ArgMatches;
use sel_base::NoMemory;
use std::alloc::{AllocError, Global};

/// The most registers that have names.
const MOST_REGISTERS: usize = 64;

/// The most bytes of a register's name.
const LONGEST_REGISTER: usize = 15;

fn has_letters_and_digits_alone(name: &str) -> bool
    ensures { result ≡ list_all is_ascii_alphanumeric name.now }
{
    name.as_bytes()
        .iter()
        .all(|byte| byte.is_ascii_alphanumeric())
}

fn is_register(name: &str) -> bool
    ensures { result ≡ is_register name.now }
{
    1 <= name.len() && name.len() <= LONGEST_REGISTER && has_letters_and_digits_alone(name)
}

fn are_all_registers(names: &[&str]) -> bool
    ensures { result ≡ list_all is_register (map (λ name. name.now) names.now) }
{
    let mut rest = names;
    'names: while let [name, behind @ ..] = rest {
        if !is_register(name) {
            return false;
        }
        rest = behind;
    }
    true
}

fn is_among(names: &[&str], name: &str) -> bool
    ensures { result ≡ list_any (bytes_eq name.now) (map (λ other. other.now) names.now) }
{
    let mut rest = names;
    'names: while let [other, behind @ ..] = rest {
        if name == *other {
            return true;
        }
        rest = behind;
    }
    false
}

fn are_different(names: &[&str]) -> bool
    ensures { result ≡ are_different (map (λ name. name.now) names.now) }
{
    let mut rest = names;
    'names: while let [name, behind @ ..] = rest {
        if is_among(behind, name) {
            return false;
        }
        rest = behind;
    }
    true
}

fn are_registers(names: &[&str]) -> bool
    ensures { result ≡ are_registers (map (λ name. name.now) names.now) }
{
    names.len() <= MOST_REGISTERS && are_all_registers(names) && are_different(names)
}

fn parts_of(alloc: Global, text: &str) -> Result<Vec<&str>, AllocError>
    ensures { IfOk result (λ names. map (λ name. name.now) names.items ≡ register_names text.now) }
{
    text.split(',').collect(alloc)
}

/// The names in a text, between its commas.
pub fn register_names(alloc: Global, text: &str) -> Result<Vec<&str>, NoMemory>
    ensures { IfOk result (λ names. map (λ name. name.now) names.items ≡ register_names text.now) }
{
    Ok(parts_of(alloc, text)?)
}

fn is_register_list(alloc: Global, text: &str) -> Result<bool, NoMemory>
    ensures { IfOk result (λ answer. answer ≡ are_registers (register_names text.now)) }
{
    let names = register_names(alloc, text)?;
    Ok(are_registers(names.as_slice()))
}

fn given_once<'a>(alloc: Global, value: &'a str) -> Result<Option<Option<&'a str>>, NoMemory>
    ensures { IfOk result (λ given. option_map (option_map (λ text. text.now)) given ≡ given_registers (value.now ∷ [])) }
{
    if is_register_list(alloc, value)? {
        Ok(Some(Some(value)))
    } else {
        Ok(None)
    }
}

/// The text of names that the options give, where they give one, or None where they give two, or one that
/// names no registers.
pub fn given_registers<'a>(
    alloc: Global,
    found: &ArgMatches<'a>,
) -> Result<Option<Option<&'a str>>, NoMemory>
    ensures { IfOk result (λ given. option_map (option_map (λ text. text.now)) given ≡ given_registers (values_in found.now (codes "registers"))) }
{
    match found.get_raw("registers") {
        None | Some([]) => Ok(Some(None)),
        Some([value]) => given_once(alloc, value),
        Some(_) => Ok(None),
    }
}

/// The registers of the grammar with this word, where none are given.
pub fn default_registers(grammar: &str) -> &'static str
    ensures { result.now ≡ default_registers grammar.now }
{
    match grammar {
        "@rv64i" => "t0,t1,t2,t3,t4,t5,t6",
        "@aarch64" => "x9,x10,x11,x12,x13,x14,x15",
        "@x86-64" => "r8,r9,r10,r11",
        _ => "r0,r1,r2,r3,r4,r5,r6,r7",
    }
}

// Bytes that are written with escapes.
use sel_base::NoMemory;

// How far an escape was read.
#[derive(Clone, Copy)]
enum Reading {
    Plain,
    Escape,
    Hex,
    HexAfter(u8),
    Wrong,
}

fn hex_digit(byte: u8) -> Option<u8> {
    match byte {
        b'0'..=b'9' => Some(byte - b'0'),
        b'a'..=b'f' => Some(byte - b'a' + 10),
        _ => None,
    }
}

// The byte that an escape of one letter stands for.
fn escaped(letter: u8) -> Option<u8> {
    match letter {
        b'n' => Some(b'\n'),
        b'r' => Some(b'\r'),
        b't' => Some(b'\t'),
        b's' => Some(b' '),
        b'\\' => Some(b'\\'),
        _ => None,
    }
}

fn behind_escape(text: &mut Vec<u8>, byte: u8) -> Result<Reading, NoMemory> {
    if byte == b'x' {
        return Ok(Reading::Hex);
    }
    let Some(meant) = escaped(byte) else {
        return Ok(Reading::Wrong);
    };
    text.push(meant)?;
    Ok(Reading::Plain)
}

fn behind_hex(byte: u8) -> Reading {
    match hex_digit(byte) {
        Some(high) => Reading::HexAfter(high),
        None => Reading::Wrong,
    }
}

fn behind_high(text: &mut Vec<u8>, high: u8, byte: u8) -> Result<Reading, NoMemory> {
    let Some(low) = hex_digit(byte) else {
        return Ok(Reading::Wrong);
    };
    text.push(high.wrapping_mul(16).wrapping_add(low))?;
    Ok(Reading::Plain)
}

fn read_byte(text: &mut Vec<u8>, reading: Reading, byte: u8) -> Result<Reading, NoMemory> {
    match reading {
        Reading::Plain if byte == b'\\' => Ok(Reading::Escape),
        Reading::Plain => {
            text.push(byte)?;
            Ok(Reading::Plain)
        }
        Reading::Escape => behind_escape(text, byte),
        Reading::Hex => Ok(behind_hex(byte)),
        Reading::HexAfter(high) => behind_high(text, high, byte),
        Reading::Wrong => Ok(Reading::Wrong),
    }
}

/// Puts the bytes that are written so: `\n`, `\r`, `\t`, `\s` for a space, `\\`, and `\x` with two digits.
/// False where an escape is none of these.
pub fn put_escaped(text: &mut Vec<u8>, written: &str) -> Result<bool, NoMemory> {
    let mut reading = Reading::Plain;
    for byte in written.as_bytes() {
        reading = read_byte(text, reading, *byte)?;
    }
    Ok(matches!(reading, Reading::Plain))
}

// Numbers in what is seen, and lines of bytes.
use itoa::Buffer;
use swarm_objects::NoMemory;

pub(crate) fn push_digits(seen: &mut Vec<u8>, number: u64) -> Result<(), NoMemory> {
    Ok(seen.extend_from_slice(Buffer::new().format(number).as_bytes())?)
}

// Words, a number, and a newline.
pub(crate) fn push_number(seen: &mut Vec<u8>, words: &[u8], number: u64) -> Result<(), NoMemory> {
    seen.extend_from_slice(words)?;
    push_digits(seen, number)?;
    Ok(seen.extend_from_slice(b"\n")?)
}

pub(crate) fn is_newline(byte: &u8) -> bool {
    *byte == b'\n'
}

// How many lines the text has that end.
pub(crate) fn lines_of(text: &[u8]) -> u64 {
    let mut count = 0u64;
    for byte in text {
        if is_newline(byte) {
            count = count.saturating_add(1);
        }
    }
    count
}

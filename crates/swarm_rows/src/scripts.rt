// The bytes of a script, from its lines in a row.
use itoa::Buffer;
use swarm_objects::NoMemory;

// The byte that a letter behind a backslash stands for.
fn unescaped(letter: u8) -> u8 {
    match letter {
        b's' => b' ',
        b't' => b'\t',
        b'r' => b'\r',
        other => other,
    }
}

// One line; the digits stand in the place of each `@`, and its newline falls away behind a backslash.
fn push_text(script: &mut Vec<u8>, text: &str, digits: &[u8]) -> Result<(), NoMemory> {
    let mut is_escaped = false;
    for byte in text.bytes() {
        if is_escaped {
            script.extend_from_slice(&[unescaped(byte)])?;
            is_escaped = false;
        } else if byte == b'\\' {
            is_escaped = true;
        } else if byte == b'@' {
            script.extend_from_slice(digits)?;
        } else {
            script.extend_from_slice(&[byte])?;
        }
    }
    if !is_escaped {
        script.extend_from_slice(b"\n")?;
    }
    Ok(())
}

// The line so many times, with the numbers from 1.
fn push_times(script: &mut Vec<u8>, times: u32, text: &str) -> Result<(), NoMemory> {
    for number in 1..=times {
        push_text(script, text, Buffer::new().format(number).as_bytes())?;
    }
    Ok(())
}

// How often a line stands in the script, and its text.
fn repeated(line: &str) -> Option<(u32, &str)> {
    let (times, text) = line.strip_prefix('*')?.split_once(' ')?;
    Some((times.parse().ok()?, text))
}

// Adds what the line of the row stands for.
fn push_line(script: &mut Vec<u8>, line: &str) -> Result<(), NoMemory> {
    if line.starts_with("//") {
        return Ok(());
    }
    match repeated(line) {
        Some((times, text)) => push_times(script, times, text),
        None => push_text(script, line, b"@"),
    }
}

// Adds the script, from its lines behind the head.
pub(crate) fn push_script(script: &mut Vec<u8>, asked: &str) -> Result<(), NoMemory> {
    for line in asked.split('\n').skip(1) {
        push_line(script, line)?;
    }
    Ok(())
}

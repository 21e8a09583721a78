// The output that is wanted of a row.

/// A line of it that stands for any lines.
const ANY: &[u8] = b"...\n";

/// Whether the output has these lines. Behind a line `...` come any lines, up to the first that is wanted next.
pub(crate) fn is_as_wanted(out: &[u8], wanted: &[u8]) -> bool {
    let mut lines = wanted.split_inclusive(|byte| *byte == b'\n');
    let mut next = lines.next();
    let mut is_any = false;
    for line in out.split_inclusive(|byte| *byte == b'\n') {
        if next == Some(ANY) {
            is_any = true;
            next = lines.next();
        }
        if next == Some(line) {
            is_any = false;
            next = lines.next();
        } else if !is_any {
            return false;
        }
    }
    next.is_none()
}

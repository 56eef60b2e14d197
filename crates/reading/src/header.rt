// The header of a CSV text.
ghost use Rattle.reading.specs.Header.{HeaderRead};

// The byte at which the rows begin, where the first line is the header (4 where it is not).
pub fn read_header(header: &[u8], text: &[u8]) -> Option<usize>
    ensures { HeaderRead header.now text.now result }
{
    if text.is_empty() {
        return None;
    }
    let line = text::csv_line(text);
    let end = line.end;
    if !text::same_bytes(&text[..end], header) {
        return None;
    }
    Some(line.next)
}

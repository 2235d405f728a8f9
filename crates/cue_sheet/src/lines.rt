//! Lines of text.
ghost use Rattle.std.specs.Prelude.{◌≡◌, ◌↔◌, None};
ghost use Rattle.cue_sheet.specs.Lines.{line_count, differing_line};

/// How many lines a text has; the last may lack its newline.
pub fn count_lines(text: &[u8]) -> usize
    ensures { result ≡ line_count text.now }
{
    let mut newlines = 0usize;
    for byte in text {
        if *byte == b'\n' {
            newlines += 1;
        }
    }
    match text.last() {
        None | Some(b'\n') => newlines,
        Some(_) => newlines + 1,
    }
}

/// The first line, counted from 1, in which two texts differ; none where they are the same.
pub fn first_difference(sheet: &[u8], script: &[u8]) -> Option<usize>
    ensures line { result ≡ differing_line sheet.now script.now }
    ensures none { (result ≡ None) ↔ (sheet.now ≡ script.now) }
{
    if sheet == script {
        return None;
    }
    let mut line = 1usize;
    for (x, y) in sheet.iter().zip(script) {
        if x != y {
            break;
        }
        if *x == b'\n' {
            line += 1;
        }
    }
    Some(line)
}

//! Cue sheets at the edges: none, a last line without newline, a script that is shorter or longer.
use cue_sheet::{count_lines, first_difference};

#[test]
fn lines_are_counted(rt: HostRuntime) {
    assert_eq!(rt; count_lines(b""), 0);
    assert_eq!(rt; count_lines(b"a"), 1);
    assert_eq!(rt; count_lines(b"a\n"), 1);
    assert_eq!(rt; count_lines(b"a\nb"), 2);
    assert_eq!(rt; count_lines(b"\n\n"), 2);
}

#[test]
fn the_first_difference_is_told(rt: HostRuntime) {
    assert_eq!(rt; first_difference(b"a\nb\n", b"a\nb\n"), None);
    assert_eq!(rt; first_difference(b"a\nb\n", b"a\nc\n"), Some(2));
    assert_eq!(rt; first_difference(b"a\nb\n", b"a\nb"), Some(2));
    assert_eq!(rt; first_difference(b"a\n", b"a\nb"), Some(2));
    assert_eq!(rt; first_difference(b"", b"x"), Some(1));
}

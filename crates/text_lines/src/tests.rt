use super::*;
use std::alloc::Global;
use std::test::*;

#[test]
fn lines(rt: HostRuntime) {
    let (first, rest) = split_line(b"ab\r\ncd".as_slice());
    assert!(rt; first == b"ab\r".as_slice() && rest == b"cd".as_slice());
    assert!(rt; without_return(first) == b"ab".as_slice() && without_return(rest) == rest);
    assert!(rt; without_return(b"".as_slice()).is_empty());
    let (last, none) = split_line(rest);
    assert!(rt; last == rest && none.is_empty());
}

/// Why a line of the tests is bad.
#[derive(Clone, Copy, Debug, PartialEq, Eq)]
enum Why {
    Long,
}

/// Reads lines of at most so many bytes, and says how many the last one has.
#[derive(Drop)]
struct Lengths {
    most: usize,
}

impl LineReader<usize, Why> for Lengths {
    ghost use Rattle.text_lines.specs.declared.tests.Why.TheVariants.{Long};
    ghost use Rattle.std.specs.Prelude.{if◌then◌else◌, nat_le, length, Ok, Err};

    ghost step = { λ r said line. if nat_le (length line) r.most then Ok (length line) else Err Long };

    fn line(&self, _alloc: Global, _said: usize, line: &[u8]) -> Result<usize, LineStop<Why>> {
        if line.len() > self.most {
            return Err(LineStop::Bad(Why::Long));
        }
        Ok(line.len())
    }
}

#[test]
fn the_first_bad_line(rt: HostRuntime) {
    let reader = Lengths { most: 3 };
    let good = read_text(rt.alloc(), &reader, 9, b"abc\n\nab".as_slice());
    assert!(rt; good == Ok(2));
    let none = read_text(rt.alloc(), &reader, 9, b"".as_slice());
    assert!(rt; none == Ok(9));
    let bad = read_text(rt.alloc(), &reader, 9, b"abc\n\nabcd\nabcde\n".as_slice());
    assert!(rt;
        bad == Err(TextStop::Bad(BadLine {
            line: 3,
            why: Why::Long
        }))
    );
}

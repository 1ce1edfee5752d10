//! Scripts that are only checked: each limit at its edge and one past it.
use crate::scripts::check_text;
use std::alloc::{AllocError, Global};
use std::test::Fail;

// A script of one line so many times between others. In that line `#` stands for how often it stands before.
struct Long {
    before: &'static [u8],
    line: &'static [u8],
    times: u64,
    after: &'static [u8],
    status: u8,
    written: &'static [u8],
}

const LONGS: [Long; 20] = [
    // The limit on files.
    Long {
        before: b"iomap 1\ndev 16 8 ee\nfolio 4\n",
        line: b"file f# cached 1\n",
        times: 64,
        after: b"",
        status: 0,
        written: b"ok files 64 phases 0 calls 0\nend\n",
    },
    Long {
        before: b"iomap 1\ndev 16 8 ee\nfolio 4\n",
        line: b"file f# cached 1\n",
        times: 65,
        after: b"",
        status: 2,
        written: b"refused line 68 cause 13 TooMuch\n",
    },
    // The limit on blocks of all files.
    Long {
        before: b"iomap 1\ndev 16 8 ee\nfolio 4\n",
        line: b"file f# cached 65536\n",
        times: 2,
        after: b"",
        status: 0,
        written: b"ok files 2 phases 0 calls 0\nend\n",
    },
    Long {
        before: b"iomap 1\ndev 16 8 ee\nfolio 4\n",
        line: b"file f# cached 65536\n",
        times: 2,
        after: b"file g cached 1\n",
        status: 2,
        written: b"refused line 6 cause 13 TooMuch\n",
    },
    // The limit on fault lines.
    Long {
        before: b"iomap 1\ndev 16 8 ee\nfolio 4\n",
        line: b"fault 16 4294967295\n",
        times: 65536,
        after: b"",
        status: 0,
        written: b"ok files 0 phases 0 calls 0\nend\n",
    },
    Long {
        before: b"iomap 1\ndev 16 8 ee\nfolio 4\n",
        line: b"fault 16 4294967295\n",
        times: 65537,
        after: b"",
        status: 2,
        written: b"refused line 65540 cause 13 TooMuch\n",
    },
    // The limit on phases.
    Long {
        before: b"iomap 1\ndev 16 8 ee\nfolio 4\n",
        line: b"phase\n",
        times: 1024,
        after: b"",
        status: 0,
        written: b"ok files 0 phases 1024 calls 0\nend\n",
    },
    Long {
        before: b"iomap 1\ndev 16 8 ee\nfolio 4\n",
        line: b"phase\n",
        times: 1025,
        after: b"",
        status: 2,
        written: b"refused line 1028 cause 13 TooMuch\n",
    },
    // The limit on calls.
    Long {
        before: b"iomap 1\ndev 16 8 ee\nfolio 4\nfile f cached 1\nphase\n",
        line: b"15 sync f\n",
        times: 65536,
        after: b"",
        status: 0,
        written: b"ok files 1 phases 1 calls 65536\nend\n",
    },
    Long {
        before: b"iomap 1\ndev 16 8 ee\nfolio 4\nfile f cached 1\nphase\n",
        line: b"15 sync f\n",
        times: 65537,
        after: b"",
        status: 2,
        written: b"refused line 65542 cause 13 TooMuch\n",
    },
    // The limit on bytes of all reads.
    Long {
        before: b"iomap 1\ndev 16 8 ee\nfolio 4\nfile f cached 1\nphase\n",
        line: b"0 pread f 0 16777216\n",
        times: 4,
        after: b"0 pread f 0 0\n",
        status: 0,
        written: b"ok files 1 phases 1 calls 5\nend\n",
    },
    Long {
        before: b"iomap 1\ndev 16 8 ee\nfolio 4\nfile f cached 1\nphase\n",
        line: b"0 pread f 0 16777216\n",
        times: 4,
        after: b"0 dread f 0 1\n",
        status: 2,
        written: b"refused line 10 cause 13 TooMuch\n",
    },
    // The limit on bytes of all writes.
    Long {
        before: b"iomap 1\ndev 16 8 ee\nfolio 4\nfile f cached 1\nphase\n",
        line: b"0 pwrite f 0 41x16777216\n",
        times: 4,
        after: b"0 pread f 0 1\n",
        status: 0,
        written: b"ok files 1 phases 1 calls 5\nend\n",
    },
    Long {
        before: b"iomap 1\ndev 16 8 ee\nfolio 4\nfile f cached 1\nphase\n",
        line: b"0 pwrite f 0 41x16777216\n",
        times: 4,
        after: b"0 dwrite f 0 41\n",
        status: 2,
        written: b"refused line 10 cause 13 TooMuch\n",
    },
    // The limit on blocks met.
    Long {
        before: b"iomap 1\ndev 16 8 ee\nfolio 4\nfile f cached 65536\nphase\n",
        line: b"0 zero f 0 18446744073709551615\n",
        times: 64,
        after: b"0 punch f 1048576 16\n",
        status: 0,
        written: b"ok files 1 phases 1 calls 65\nend\n",
    },
    Long {
        before: b"iomap 1\ndev 16 8 ee\nfolio 4\nfile f cached 65536\nphase\n",
        line: b"0 zero f 0 18446744073709551615\n",
        times: 64,
        after: b"0 punch f 1048575 16\n",
        status: 2,
        written: b"refused line 70 cause 13 TooMuch\n",
    },
    // Those that a cut meets.
    Long {
        before: b"iomap 1\ndev 16 8 ee\nfolio 4\nfile f cached 65536\nsize f 0\nphase\n",
        line: b"0 trunc f 0\n",
        times: 64,
        after: b"0 trunc f 1048576\n",
        status: 0,
        written: b"ok files 1 phases 1 calls 65\nend\n",
    },
    Long {
        before: b"iomap 1\ndev 16 8 ee\nfolio 4\nfile f cached 65536\nsize f 0\nphase\n",
        line: b"0 trunc f 0\n",
        times: 64,
        after: b"0 trunc f 1048575\n",
        status: 2,
        written: b"refused line 71 cause 13 TooMuch\n",
    },
    // The limit on bytes of a script.
    Long {
        before: b"iomap 1\ndev 16 8 ee\nfolio 4\nfile f cached 1\n",
        line: b"                               \n",
        times: 524286,
        after: b"                   \n",
        status: 0,
        written: b"ok files 1 phases 0 calls 0\nend\n",
    },
    Long {
        before: b"iomap 1\ndev 16 8 ee\nfolio 4\nfile f cached 1\n",
        line: b"                               \n",
        times: 524286,
        after: b"                    \n",
        status: 2,
        written: b"refused line 0 cause 13 TooMuch\n",
    },
];

// The text of a long script.
fn long_text(alloc: Global, long: &Long) -> Result<Vec<u8>, AllocError> {
    let mut text = Vec::new(alloc);
    text.extend_from_slice(long.before)?;
    for number in 0..long.times {
        for byte in long.line {
            if *byte == b'#' {
                let digits = format!(in alloc; "{number}")?;
                text.extend_from_slice(digits.as_bytes())?;
            } else {
                text.push(*byte)?;
            }
        }
    }
    text.extend_from_slice(long.after)?;
    Ok(text)
}

#[test]
fn limits_are_kept(rt: HostRuntime) -> Result<(), Fail> {
    let alloc = rt.alloc();
    for long in &LONGS {
        let (status, sink) = check_text(alloc, long_text(alloc, long)?);
        assert_eq!(rt; status, long.status);
        assert_eq!(rt; sink.bytes(), long.written);
    }
    Ok(())
}

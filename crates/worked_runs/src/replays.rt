//! Replays of whole scripts: runs that are worked out by hand, and what hinders a run.
ghost use Rattle.std.specs.Prelude.{◌≡◌, None, length};

use fault_device::{Fate, Listed, Verdict};
use iob_base::{MemSink, MemSource, Status};
use iomap_replay::replay;
use std::alloc::{AllocError, Global};
use std::sync::Wait;
use std::test::Fail;
use std::thread::Threads;

// A script, what fails, and what is to come of it.
struct Row {
    script: &'static [u8],
    words: &'static [&'static str],
    // The calls of the source and of the sink that fail, and the transfers of lane 0, by number from 1.
    source_fails: &'static [u64],
    sink_fails: &'static [u64],
    transfers_fail: &'static [u64],
    status: u8,
    written: &'static [u8],
}

// One read of a block that has bytes of its own.
const OWN_BYTES: &[u8] =
    b"iomap 1\ndev 16 8 ee\nfolio 4\ndata 2 000102030405060708090a0b0c0d0e0f\nfile f cached 4\next f 0 2 1 mapped\nphase\n0 pread f 0 16\n";

// One read of two bytes of a block that has the fill byte.
const FILL_BYTES: &[u8] =
    b"iomap 1\ndev 16 8 ee\nfolio 4\nfile f cached 1\next f 0 5 1 mapped\nphase\n0 pread f 0 2\n";

// A read of 26 bytes of three blocks in one folio: the last four of a block with bytes of its own, all
// sixteen of the next, and the first six of one that has the fill byte.
const THREE_BLOCKS: &[u8] =
    b"iomap 1\ndev 16 8 ee\nfolio 4\ndata 3 000102030405060708090a0b0c0d0e0f\ndata 2 f0f1f2f3f4f5f6f7f8f9fafbfcfdfeff\nfile f cached 8\next f 4 2 4 mapped\nphase\n0 pread f 76 26\n";

// Three whole blocks of a folio of eight, in a file that begins with a hole.
const WHOLE_BLOCKS: &[u8] =
    b"iomap 1\ndev 16 6 00\nfolio 8\ndata 4 00112233445566778899aabbccddeeff\ndata 2 11x16\nfile f cached 5\next f 1 2 3 mapped\nphase\n0 pread f 16 48\n";

// Two blocks of 512 bytes, and two of 4096.
const BLOCKS_OF_512: &[u8] =
    b"iomap 1\ndev 512 4 a5\nfolio 2\ndata 1 3cx512\nfile f cached 2\next f 0 0 2 mapped\nphase\n0 pread f 510 5\n";

const BLOCKS_OF_4096: &[u8] =
    b"iomap 1\ndev 4096 3 07\nfolio 2\ndata 1 5ax4096\nfile f cached 2\next f 0 1 2 mapped\nphase\n0 pread f 4095 3\n";

// Sixteen blocks, and seventeen, which are more than one transfer moves.
const SIXTEEN_BLOCKS: &[u8] =
    b"iomap 1\ndev 16 16 c3\nfolio 16\nfile f cached 16\next f 0 0 16 mapped\nphase\n0 pread f 15 226\n";

const SEVENTEEN_BLOCKS: &[u8] =
    b"iomap 1\ndev 16 17 c3\nfolio 32\nfile f cached 17\next f 0 0 17 mapped\nphase\n0 pread f 15 242\n";

// Two blocks of two folios, and two blocks of which the extent has the first.
const TWO_FOLIOS: &[u8] =
    b"iomap 1\ndev 16 4 c3\nfolio 2\nfile f cached 4\next f 0 0 4 mapped\nphase\n0 pread f 31 2\n";

const PAST_THE_EXTENT: &[u8] =
    b"iomap 1\ndev 16 4 c3\nfolio 2\nfile f cached 4\next f 0 0 1 mapped\nphase\n0 pread f 15 2\n";

// Scripts of that form but for a size, a cut, and a grain below the block size.
const A_SIZE: &[u8] =
    b"iomap 1\ndev 16 8 ee\nfolio 4\nfile f cached 4\nsize f 64\next f 0 2 1 mapped\nphase\n0 pread f 0 16\n";

const A_CUT: &[u8] =
    b"iomap 1\ndev 16 8 ee\nfolio 4\nfile f cached 4\nsize f 64\next f 0 2 1 mapped\nphase\n0 trunc f 0\n";

const A_FINE_GRAIN: &[u8] =
    b"iomap 2\ndev 32 8 ee\nfolio 4\ngrain 16\nfile f cached 4\next f 0 2 1 mapped\nphase\n0 pread f 0 16\n";

// The second version, whose grain is the block size.
const A_WHOLE_GRAIN: &[u8] =
    b"iomap 2\ndev 16 8 ee\nfolio 4\ngrain 16\nfile f cached 4\next f 0 2 1 mapped\nphase\n0 pread f 0 16\n";

const ROWS: [Row; 23] = [
    Row {
        script: OWN_BYTES,
        words: &[],
        source_fails: &[],
        sink_fails: &[],
        transfers_fail: &[],
        status: 0,
        written: b"run 1\ncall 1 0 pread ok 16 000102030405060708090a0b0c0d0e0f bios 1\nclose f ok 0 bios 0\njournal f 0 1\nmap f 0 1 mapped 2\nfree 7\nbios 1\nlane 0 ops 1 faults 0\nend\n",
    },
    Row {
        script: FILL_BYTES,
        words: &[],
        source_fails: &[],
        sink_fails: &[],
        transfers_fail: &[2],
        status: 0,
        written: b"run 1\ncall 1 0 pread ok 2 eeee bios 1\nclose f ok 0 bios 0\njournal f 0 1\nmap f 0 1 mapped 5\nfree 7\nbios 1\nlane 0 ops 1 faults 0\nend\n",
    },
    Row {
        script: OWN_BYTES,
        words: &[],
        source_fails: &[],
        sink_fails: &[],
        transfers_fail: &[1],
        status: 1,
        written: b"run 1\ncall 1 0 pread err EIO lane 0 rose 0 1 bios 1\nclose f ok 0 bios 0\nmap f 0 1 mapped 2\nfree 7\nbios 1\nlane 0 ops 1 faults 1\nend\n",
    },
    Row {
        script: b"",
        words: &[],
        source_fails: &[],
        sink_fails: &[],
        transfers_fail: &[],
        status: 2,
        written: b"refused line 1 cause 1 NoHeader\n",
    },
    Row {
        script: OWN_BYTES,
        words: &[],
        source_fails: &[1],
        sink_fails: &[],
        transfers_fail: &[],
        status: 3,
        written: b"",
    },
    Row {
        script: OWN_BYTES,
        words: &[],
        source_fails: &[],
        sink_fails: &[1],
        transfers_fail: &[],
        status: 4,
        written: b"",
    },
    Row {
        script: OWN_BYTES,
        words: &["--check"],
        source_fails: &[],
        sink_fails: &[],
        transfers_fail: &[1],
        status: 0,
        written: b"ok files 1 phases 1 calls 1\nend\n",
    },
    Row {
        script: b"",
        words: &["--check"],
        source_fails: &[],
        sink_fails: &[],
        transfers_fail: &[],
        status: 2,
        written: b"refused line 1 cause 1 NoHeader\n",
    },
    Row {
        script: OWN_BYTES,
        words: &["--check", "--check"],
        source_fails: &[],
        sink_fails: &[],
        transfers_fail: &[],
        status: 64,
        written: b"",
    },
    Row {
        script: OWN_BYTES,
        words: &["--frob"],
        source_fails: &[],
        sink_fails: &[],
        transfers_fail: &[],
        status: 64,
        written: b"",
    },
    // Two runs of one script: the transfer of the first is judged to fail, and that of the second is not.
    Row {
        script: THREE_BLOCKS,
        words: &[],
        source_fails: &[],
        sink_fails: &[],
        transfers_fail: &[1],
        status: 1,
        written: b"run 1\ncall 1 0 pread err EIO lane 0 rose 0 1 bios 1\nclose f ok 0 bios 0\nmap f 4 4 mapped 2\nfree 4\nbios 1\nlane 0 ops 1 faults 1\nend\n",
    },
    Row {
        script: THREE_BLOCKS,
        words: &[],
        source_fails: &[],
        sink_fails: &[],
        transfers_fail: &[],
        status: 0,
        written: b"run 1\ncall 1 0 pread ok 26 fcfdfeff000102030405060708090a0b0c0d0e0feeeeeeeeeeee bios 1\nclose f ok 0 bios 0\njournal f 4 1\njournal f 5 1\njournal f 6 1\nmap f 4 4 mapped 2\nfree 4\nbios 1\nlane 0 ops 1 faults 0\nend\n",
    },
    Row {
        script: WHOLE_BLOCKS,
        words: &[],
        source_fails: &[],
        sink_fails: &[],
        transfers_fail: &[],
        status: 0,
        written: b"run 1\ncall 1 0 pread ok 48 111111111111111111111111111111110000000000000000000000000000000000112233445566778899aabbccddeeff bios 1\nclose f ok 0 bios 0\njournal f 1 1\njournal f 2 1\njournal f 3 1\nmap f 1 3 mapped 2\nfree 3\nbios 1\nlane 0 ops 1 faults 0\nend\n",
    },
    Row {
        script: BLOCKS_OF_512,
        words: &[],
        source_fails: &[],
        sink_fails: &[],
        transfers_fail: &[],
        status: 0,
        written: b"run 1\ncall 1 0 pread ok 5 a5a53c3c3c bios 1\nclose f ok 0 bios 0\njournal f 0 1\njournal f 1 1\nmap f 0 2 mapped 0\nfree 2\nbios 1\nlane 0 ops 1 faults 0\nend\n",
    },
    Row {
        script: BLOCKS_OF_4096,
        words: &[],
        source_fails: &[],
        sink_fails: &[],
        transfers_fail: &[],
        status: 0,
        written: b"run 1\ncall 1 0 pread ok 3 5a0707 bios 1\nclose f ok 0 bios 0\njournal f 0 1\njournal f 1 1\nmap f 0 2 mapped 1\nfree 1\nbios 1\nlane 0 ops 1 faults 0\nend\n",
    },
    Row {
        script: SIXTEEN_BLOCKS,
        words: &[],
        source_fails: &[],
        sink_fails: &[],
        transfers_fail: &[],
        status: 0,
        written: b"run 1\ncall 1 0 pread ok 226 c3c3c3c3c3c3c3c3c3c3c3c3c3c3c3c3c3c3c3c3c3c3c3c3c3c3c3c3c3c3c3c3c3c3c3c3c3c3c3c3c3c3c3c3c3c3c3c3c3c3c3c3c3c3c3c3c3c3c3c3c3c3c3c3c3c3c3c3c3c3c3c3c3c3c3c3c3c3c3c3c3c3c3c3c3c3c3c3c3c3c3c3c3c3c3c3c3c3c3c3c3c3c3c3c3c3c3c3c3c3c3c3c3c3c3c3c3c3c3c3c3c3c3c3c3c3c3c3c3c3c3c3c3c3c3c3c3c3c3c3c3c3c3c3c3c3c3c3c3c3c3c3c3c3c3c3c3c3c3c3c3c3c3c3c3c3c3c3c3c3c3c3c3c3c3c3c3c3c3c3c3c3c3c3c3c3c3c3c3c3c3c3c3c3c3c3c3c3c3c3c3c3c3c3c3c3c3c3c3c3c3c3c3c3c3c3c3c3c3c3c3c3c3c3c3c3 bios 1\nclose f ok 0 bios 0\njournal f 0 1\njournal f 1 1\njournal f 2 1\njournal f 3 1\njournal f 4 1\njournal f 5 1\njournal f 6 1\njournal f 7 1\njournal f 8 1\njournal f 9 1\njournal f 10 1\njournal f 11 1\njournal f 12 1\njournal f 13 1\njournal f 14 1\njournal f 15 1\nmap f 0 16 mapped 0\nfree 0\nbios 1\nlane 0 ops 1 faults 0\nend\n",
    },
    Row {
        script: SEVENTEEN_BLOCKS,
        words: &[],
        source_fails: &[],
        sink_fails: &[],
        transfers_fail: &[],
        status: 2,
        written: b"refused line 0 cause 14 NotYet\n",
    },
    Row {
        script: TWO_FOLIOS,
        words: &[],
        source_fails: &[],
        sink_fails: &[],
        transfers_fail: &[],
        status: 2,
        written: b"refused line 0 cause 14 NotYet\n",
    },
    Row {
        script: PAST_THE_EXTENT,
        words: &[],
        source_fails: &[],
        sink_fails: &[],
        transfers_fail: &[],
        status: 2,
        written: b"refused line 0 cause 14 NotYet\n",
    },
    Row {
        script: A_SIZE,
        words: &[],
        source_fails: &[],
        sink_fails: &[],
        transfers_fail: &[],
        status: 2,
        written: b"refused line 0 cause 14 NotYet\n",
    },
    Row {
        script: A_CUT,
        words: &[],
        source_fails: &[],
        sink_fails: &[],
        transfers_fail: &[],
        status: 2,
        written: b"refused line 0 cause 14 NotYet\n",
    },
    Row {
        script: A_FINE_GRAIN,
        words: &[],
        source_fails: &[],
        sink_fails: &[],
        transfers_fail: &[],
        status: 2,
        written: b"refused line 0 cause 14 NotYet\n",
    },
    Row {
        script: A_WHOLE_GRAIN,
        words: &[],
        source_fails: &[],
        sink_fails: &[],
        transfers_fail: &[],
        status: 0,
        written: b"run 1\ncall 1 0 pread ok 16 eeeeeeeeeeeeeeeeeeeeeeeeeeeeeeee bios 1\nclose f ok 0 bios 0\njournal f 0 1\nmap f 0 1 mapped 2\nfree 7\nbios 1\nlane 0 ops 1 faults 0\nend\n",
    },
];

// A run whose one transfer fails by a fate that tells nothing, and whose count stood at 3.
const SILENT: Row = Row {
    script: THREE_BLOCKS,
    words: &[],
    source_fails: &[],
    sink_fails: &[],
    transfers_fail: &[],
    status: 1,
    written: b"run 1\ncall 1 0 pread err EIO lane 0 rose 3 5 bios 1\nclose f ok 0 bios 0\nmap f 4 4 mapped 2\nfree 4\nbios 1\nlane 0 ops 1 faults 5\nend\n",
};

// A fate that tells nothing. Every transfer fails at its last block, and the count then rises by two.
#[derive(Drop)]
struct Silent {
    failed: u64,
}

impl Fate for Silent {
    ghost count = { λ s. s.failed };

    ghost tells = { λ _. None };

    fn arm(&mut self, op: u64) -> Result<(), AllocError> {
        let _ = op;
        Ok(())
    }

    fn judge(&mut self, blocks: u32) -> Verdict {
        self.failed = self.failed.saturating_add(2);
        Verdict::Failed { landed: blocks - 1 }
    }

    fn faults(&self) -> u64 {
        self.failed
    }
}

// How many lanes there are: one for each caller, and that of the closing sync.
const LANES: usize = 17;

// A fate by which these transfers fail.
fn armed(alloc: Global, failing: &[u64]) -> Result<Listed, AllocError> {
    let mut fate = Listed::new(alloc);
    for number in failing {
        fate.arm(*number)?;
    }
    Ok(fate)
}

// Replays a row's script over these fates.
fn replay_row<R: Threads + Wait + Sync>(
    rt: &R,
    alloc: Global,
    row: &Row,
    fates: Vec<Box<dyn Fate + Send>>,
) -> Result<(Status, MemSink), AllocError>
    requires { length fates.items ≡ 17 }
{
    let mut words = Vec::new(alloc);
    for word in row.words {
        words.push(String::from_str(alloc, word)?)?;
    }
    let mut source = MemSource::new(
        Vec::from_slice(alloc, row.script)?,
        Vec::from_slice(alloc, row.source_fails)?,
    );
    let mut sink = MemSink::new(alloc, Vec::from_slice(alloc, row.sink_fails)?);
    let status = replay(rt, alloc, &words, &mut source, &mut sink, fates);
    Ok((status, sink))
}

#[test]
fn rows_are_replayed(rt: HostRuntime) -> Result<(), Fail> {
    let alloc = rt.alloc();
    for row in &ROWS {
        // By the first of the fates the row's transfers fail, and by the others none.
        let mut fates: Vec<Box<dyn Fate + Send>> = Vec::new(alloc);
        fates.push(Box::new(alloc, armed(alloc, row.transfers_fail)?)?)?;
        for _ in 1..LANES {
            fates.push(Box::new(alloc, Listed::new(alloc))?)?;
        }
        let (status, sink) = replay_row(&rt, alloc, row, fates)?;
        assert_eq!(rt; status.0, row.status);
        assert_eq!(rt; sink.bytes(), row.written);
    }
    Ok(())
}

#[test]
fn silent_fate_is_named_by_its_counts(rt: HostRuntime) -> Result<(), Fail> {
    let alloc = rt.alloc();
    let mut fates: Vec<Box<dyn Fate + Send>> = Vec::new(alloc);
    fates.push(Box::new(alloc, Silent { failed: 3 })?)?;
    for _ in 1..LANES {
        fates.push(Box::new(alloc, Listed::new(alloc))?)?;
    }
    let (status, sink) = replay_row(&rt, alloc, &SILENT, fates)?;
    assert_eq!(rt; status.0, SILENT.status);
    assert_eq!(rt; sink.bytes(), SILENT.written);
    Ok(())
}

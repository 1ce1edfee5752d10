//! Scripts that are only checked: those of the worked runs, and what is easily got wrong.

use iob_base::{MemSink, MemSource};
use iomap_replay::check_script;
use std::alloc::{AllocError, Global};
use std::test::Fail;

// A script, and what is to come of it.
struct Check {
    script: &'static [u8],
    status: u8,
    written: &'static [u8],
}

const CHECKS: [Check; 45] = [
    Check {
        script: b"iomap 1\ndev 16 8 ee\nfolio 4\nfile f cached 1\next f 0 5 1 mapped\nphase\n0 pwrite f 2 4142\n0 pread f 0 6\n",
        status: 0,
        written: b"ok files 1 phases 1 calls 2\nend\n",
    },
    Check {
        script: b"iomap 1\ndev 16 8 ee\nfolio 4\nfile f cached 1\nphase\n0 pwrite f 0 41x16\n0 sync f\n0 drop f\n0 pread f 0 4\n",
        status: 0,
        written: b"ok files 1 phases 1 calls 4\nend\n",
    },
    Check {
        script: b"iomap 1\ndev 16 8 ee\nfolio 4\nfile f cached 1\next f 0 3 1 unwritten\nfault 0 1\nphase\n0 pwrite f 0 41x16\n0 sync f\n0 sync f\n",
        status: 0,
        written: b"ok files 1 phases 1 calls 3\nend\n",
    },
    Check {
        script: b"iomap 1\ndev 16 8 ee\nfolio 4\nfile f cached 4\next f 0 0 4 unwritten\nfault 0 1\nphase\n0 dwrite f 0 41x64\n0 pread f 0 4\n",
        status: 0,
        written: b"ok files 1 phases 1 calls 2\nend\n",
    },
    Check {
        script: b"iomap 1\ndev 16 8 ee\nfolio 4\nfile f cached 1\nphase\n0 pwrite f 0 41x16\n0 dread f 0 16\n",
        status: 0,
        written: b"ok files 1 phases 1 calls 2\nend\n",
    },
    Check {
        script: b"iomap 1\ndev 16 8 ee\nfolio 4\nfile f cached 1\next f 0 5 1 mapped\nphase\n0 pread f 0 2\n0 dwrite f 0 42x16\n0 pread f 0 2\n",
        status: 0,
        written: b"ok files 1 phases 1 calls 3\nend\n",
    },
    Check {
        script: b"iomap 1\ndev 16 4 ee\nfolio 4\nfile f cached 8\nphase\n0 alloc f 0 80\n0 pwrite f 16 43x80\n",
        status: 0,
        written: b"ok files 1 phases 1 calls 2\nend\n",
    },
    Check {
        script: b"iomap 1\ndev 16 8 ee\nfolio 4\nfile f cached 1\nfault 0 1\nphase\n0 pwrite f 0 41x16\n0 wb f 0 1\n0 drop f\n0 pread f 0 2\n",
        status: 0,
        written: b"ok files 1 phases 1 calls 4\nend\n",
    },
    Check {
        script: b"iomap 1\ndev 16 8 ee\nfolio 4\nfile f cached 1\nfault 16 1\nphase\n0 pwrite f 0 41x16\n",
        status: 0,
        written: b"ok files 1 phases 1 calls 1\nend\n",
    },
    Check {
        script: b"iomap 1\ndev 16 8 ee\nfolio 4\nfile f cached 8\next f 0 0 8 mapped\nfault 0 2\nphase\n0 pread f 60 8\n",
        status: 0,
        written: b"ok files 1 phases 1 calls 1\nend\n",
    },
    Check {
        script: b"iomap 1\ndev 16 8 ee\nfolio 4\n",
        status: 0,
        written: b"ok files 0 phases 0 calls 0\nend\n",
    },
    Check {
        script: b"iomap 1\ndev 16 8 ee\nfolio 4\nphase\nphase\n",
        status: 0,
        written: b"ok files 0 phases 2 calls 0\nend\n",
    },
    Check {
        script: b"\n  # a comment\n  iomap   1 \n\ndev 16 8 EE\nfolio 04\n  \nfile f_1 dax 2\ndata 7 -\n",
        status: 2,
        written: b"refused line 9 cause 8 BadBytes\n",
    },
    Check {
        script: b"iomap 1\ndev 16 8 ee\nfolio 1\nfile f cached 4\next f 0 2 2 mapped\next f 2 3 1 mapped\n",
        status: 2,
        written: b"refused line 6 cause 11 Overlap\n",
    },
    Check {
        script: b"iomap 1\ndev 16 8 ee\nfolio 4\nfile f cached 4\nphase\n0 pre",
        status: 2,
        written: b"refused line 6 cause 3 NoEnd\n",
    },
    Check {
        script: b"iomap 1\ndev 16 8 ee\nfolio 4\nfile f cached 4\nphase\n0 pread f 0 16\n0 pread g 0 16\n0 frob f\n",
        status: 2,
        written: b"refused line 7 cause 9 BadName\n",
    },
    Check {
        script: b"iomap 1\ndev 16 8 ee\nfolio 4\ngrain 8\n",
        status: 2,
        written: b"refused line 4 cause 5 BadOrder\n",
    },
    Check {
        script: b"iomap 1\ndev 16 8 ee\nfolio 4\n# no end",
        status: 2,
        written: b"refused line 4 cause 3 NoEnd\n",
    },
    Check {
        script: b"iomap 1\ndev 16 8 ee\nfolio 4\nfile f cached 4\nphase\n0 pread f 18446744073709551615 1\n",
        status: 0,
        written: b"ok files 1 phases 1 calls 1\nend\n",
    },
    Check {
        script: b"iomap 1\ndev 16 8 ee\nfolio 4\nfile f cached 4\next f 18446744073709551615 0 1 mapped\n",
        status: 2,
        written: b"refused line 5 cause 10 BadBlock\n",
    },
    Check {
        script: b"iomap 1\ndev 16 8 ee\nfolio 4\nfile f cached 4\next f 0 18446744073709551615 1 mapped\n",
        status: 2,
        written: b"refused line 5 cause 10 BadBlock\n",
    },
    Check {
        script: b"iomap 1\ndev 16 8 ee\nfolio 4\nfile f cached 4\nphase\n0 pread f 0 18446744073709551616\n",
        status: 2,
        written: b"refused line 6 cause 7 BadNumber\n",
    },
    Check {
        script: b"iomap 1\ndev 16 8 ee\nfolio 4\nfile f cached 4\nphase\n0 size f 4\n",
        status: 2,
        written: b"refused line 6 cause 4 BadWord\n",
    },
    Check {
        script: b"iomap 1\ndev 4096 4096 00\nfolio 32\n",
        status: 0,
        written: b"ok files 0 phases 0 calls 0\nend\n",
    },
    Check {
        script: b"iomap 1\ndev 16 65536 00\nfolio 1\nfile f cached 65536\n",
        status: 0,
        written: b"ok files 1 phases 0 calls 0\nend\n",
    },
    Check {
        script: b"iomap 1\ndev 16 65537 00\nfolio 1\n",
        status: 2,
        written: b"refused line 2 cause 7 BadNumber\n",
    },
    Check {
        script: b"iomap 1\ndev 16 8 ee\nfolio 4\nfile f cached 65537\n",
        status: 2,
        written: b"refused line 4 cause 7 BadNumber\n",
    },
    Check {
        script: b"iomap 1\ndev 16 8 ee\nfolio 4\nfault 17 1\n",
        status: 2,
        written: b"refused line 4 cause 7 BadNumber\n",
    },
    Check {
        script: b"iomap 1\ndev 16 8 ee\nfolio 4\nfile f cached 4\nphase\n0 pread f 0 1+1+1+1+1+1+1+1+1+1+1+1+1+1+1+1\n",
        status: 0,
        written: b"ok files 1 phases 1 calls 1\nend\n",
    },
    Check {
        script: b"iomap 1\ndev 16 8 ee\nfolio 4\nfile f cached 4\nsize f 5\next f 0 2 1 mapped\nphase\n0 pread f 0 16\n0 pwrite f 20 41\n0 pread f 0 24\n0 trunc f 3\n0 pread f 0 8\n",
        status: 0,
        written: b"ok files 1 phases 1 calls 5\nend\n",
    },
    Check {
        script: b"iomap 1\ndev 16 8 ee\nfolio 4\nfile f cached 4\nsize f 5\next f 0 2 1 mapped\nphase\n0 trunc f 65\n",
        status: 0,
        written: b"ok files 1 phases 1 calls 1\nend\n",
    },
    Check {
        script: b"iomap 2\ndev 32 8 ee\nfolio 4\ngrain 16\nfile f cached 2\next f 0 3 1 unwritten\nphase\n0 dwrite f 16 41x16\n0 pread f 0 32\n0 dread f 16 16\n0 dwrite f 8 42x16\n",
        status: 0,
        written: b"ok files 1 phases 1 calls 4\nend\n",
    },
    Check {
        script: b"iomap 1\ndev 16 8 ee\nfolio 4\nfile f cached 4\nsize f 64\n",
        status: 0,
        written: b"ok files 1 phases 0 calls 0\nend\n",
    },
    Check {
        script: b"iomap 1\ndev 16 8 ee\nfolio 4\nfile f cached 4\nsize f 65\n",
        status: 2,
        written: b"refused line 5 cause 10 BadBlock\n",
    },
    Check {
        script: b"iomap 1\ndev 16 8 ee\nfolio 4\nfile f cached 4\nsize f 18446744073709551615\n",
        status: 2,
        written: b"refused line 5 cause 10 BadBlock\n",
    },
    Check {
        script: b"iomap 1\ndev 16 8 ee\nfolio 4\nfile f cached 4\nsize f 1\nsize f 1\n",
        status: 2,
        written: b"refused line 6 cause 9 BadName\n",
    },
    Check {
        script: b"iomap 1\ndev 16 8 ee\nfolio 4\nfile g dax 4\nsize g 64\n",
        status: 2,
        written: b"refused line 5 cause 12 BadMode\n",
    },
    Check {
        script: b"iomap 1\ndev 16 8 ee\nfolio 4\nfile g dax 4\nsize g 65\n",
        status: 2,
        written: b"refused line 5 cause 10 BadBlock\n",
    },
    Check {
        script: b"iomap 1\ndev 16 8 ee\nfolio 4\nfile f cached 4\nphase\n0 trunc f 0\n",
        status: 2,
        written: b"refused line 6 cause 12 BadMode\n",
    },
    Check {
        script: b"iomap 1\ndev 16 8 ee\nfolio 4\nfile f cached 4\nsize f 0\nphase\n0 dwrite f 0 41x16\n",
        status: 2,
        written: b"refused line 7 cause 12 BadMode\n",
    },
    Check {
        script: b"iomap 2\ndev 32 8 ee\nfolio 4\ngrain 32\n",
        status: 0,
        written: b"ok files 0 phases 0 calls 0\nend\n",
    },
    Check {
        script: b"iomap 2\ndev 32 8 ee\nfolio 4\ngrain 64\n",
        status: 2,
        written: b"refused line 4 cause 7 BadNumber\n",
    },
    Check {
        script: b"iomap 2\ndev 32 8 ee\nfolio 4\ngrain 24\n",
        status: 2,
        written: b"refused line 4 cause 7 BadNumber\n",
    },
    Check {
        script: b"iomap 2\ndev 32 8 ee\nfolio 4\nphase\n",
        status: 2,
        written: b"refused line 4 cause 5 BadOrder\n",
    },
    Check {
        script: b"iomap 2\ndev 32 8 ee\nfolio 4\n",
        status: 2,
        written: b"refused line 4 cause 5 BadOrder\n",
    },
];

// The script of a database file and its log: four callers write the file past the page cache, and a fifth logs.
fn database_text(alloc: Global) -> Result<Vec<u8>, AllocError> {
    let mut text = Vec::new(alloc);
    text.extend_from_slice(
        b"iomap 1\ndev 4096 4096 00\nfolio 16\nfile db cached 2048\nfile log cached 64\nphase\n0 alloc db 0 8388608\n0 dwrite db 0 5ax8388608\nphase\n",
    )?;
    for number in 0..256u64 {
        let (caller, nth) = (number / 64, number % 64);
        let at = (512 * caller + 8 * nth) * 4096;
        let line = format!(in alloc; "{caller} dwrite db {at} 6{caller}x4096\n")?;
        text.extend_from_slice(line.as_bytes())?;
    }
    for number in 0..16u64 {
        let line = format!(in alloc; "4 pwrite log {} 6cx1000\n", 1000 * number)?;
        text.extend_from_slice(line.as_bytes())?;
        if number % 4 == 3 {
            text.extend_from_slice(b"4 sync log\n")?;
        }
    }
    text.extend_from_slice(
        b"phase\n0 punch db 0 4194304\n0 pread log 0 16\n0 dread db 4194304 4096\n",
    )?;
    Ok(text)
}

// Checks a text, and gives the status with what was written.
pub(crate) fn check_text(alloc: Global, text: Vec<u8>) -> (u8, MemSink) {
    let mut source = MemSource::new(text, Vec::new(alloc));
    let mut sink = MemSink::new(alloc, Vec::new(alloc));
    let status = check_script(alloc, &mut source, &mut sink);
    (status.0, sink)
}

#[test]
fn scripts_are_checked(rt: HostRuntime) -> Result<(), Fail> {
    let alloc = rt.alloc();
    for check in &CHECKS {
        let (status, sink) = check_text(alloc, Vec::from_slice(alloc, check.script)?);
        assert_eq!(rt; status, check.status);
        assert_eq!(rt; sink.bytes(), check.written);
    }
    Ok(())
}

#[test]
fn database_and_log_are_a_script(rt: HostRuntime) -> Result<(), Fail> {
    let alloc = rt.alloc();
    let (status, sink) = check_text(alloc, database_text(alloc)?);
    assert_eq!(rt; status, 0);
    assert_eq!(rt;
        sink.bytes(),
        b"ok files 2 phases 3 calls 281\nend\n".as_slice()
    );
    Ok(())
}

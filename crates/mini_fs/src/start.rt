//! A mount begins.
ghost use Rattle.std.specs.Prelude.{◌<◌, ◌≤◌, ◌^◌, All, IfOk, length};
ghost use Rattle.iob_base.specs.declared.TheConstants.{WORN};
ghost use Rattle.file_stripes.specs.Files.{IsFile, numbers_of_files};
ghost use Rattle.file_stripes.specs.Taking.{AreInOrder, AreNamedOnce, IsWhole};
ghost use Rattle.mount_parts.specs.FirstSizes.{MayHaveSize};
ghost use Rattle.mini_fs.specs.PassView.{IsPassOf};
ghost use Rattle.mini_fs.specs.Starts.{Started};

use crate::mount::Mount;
use crate::open_bios::open_bios;
use crate::pass::Pass;
use io_model::FileSpec;
use iob_base::{Geometry, Sector, WORN};
use mount_parts::{LaidFiles, lay_files};
use std::alloc::{AllocError, Global};

impl Mount {
    /// A mount of these files, and its first pass, which has the whole share at each cell and holds no class.
    ///
    /// The sectors hold each number below their count once, in order. The files' extents are mapped or unwritten, and share no
    /// block of the file or of the device. A file with a size is cached, and its size is at most its end. The bytes of a mapped
    /// block at or past the size become zeros.
    ///
    /// # Errors
    ///
    /// Want of memory, which drops the sectors and the files.
    pub fn start(
        alloc: Global,
        geometry: Geometry,
        sectors: Vec<Sector>,
        files: Vec<FileSpec>,
        first_cookie: u64,
    ) -> Result<(Mount, Pass), AllocError>
        requires device { AreInOrder 0 sectors.items }
        requires whole { All (IsWhole geometry.block_size) sectors.items }
        requires files { All IsFile files.items }
        requires few { length files.items < 2 ^ 32 }
        requires named { AreNamedOnce (length sectors.items) (numbers_of_files files.items) }
        requires sized { All (MayHaveSize geometry.block_size) files.items }
        requires cookie { first_cookie ≤ WORN }
        ensures of { IfOk result (λ r. IsPassOf r.0 r.1) }
        ensures started { IfOk result (λ r. Started geometry first_cookie sectors.items files.items r.0 r.1) }
    {
        let laid = lay_files(alloc, geometry, sectors, files.as_slice(), first_cookie)?;
        let LaidFiles {
            files: places,
            stripes,
            stripe_seats,
            sizes,
            size_seats,
            locks,
            lock_seats,
            pool,
            idle,
        } = laid;
        let (queue, bios) = open_bios(alloc)?;
        let pass = Pass {
            stripes: stripe_seats,
            sizes: size_seats,
            locks: lock_seats,
            caller: 0,
            spare: u32::MAX,
            last: 0,
            begun: None,
            bios,
        };
        let mount = Mount {
            alloc,
            geometry,
            files: places,
            stripes,
            sizes,
            locks,
            pool,
            idle,
            queue,
        };
        Ok((mount, pass))
    }
}

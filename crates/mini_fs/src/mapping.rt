//! How a mount maps ranges of its files: a begin for each kind of work, and the end that takes back what was not used.
ghost use Rattle.std.specs.Prelude.{◌≡◌, ◌<◌, ◌≤◌, ◌*◌, ℕ, IfErr, IfOk, IfSome, IsSome, IsTrue, None};
ghost use Rattle.iob_base.specs.declared.stamp.Mode.TheVariants.{Cached};
ghost use Rattle.io_model.specs.declared.file.Kind.TheVariants.{Hole};
ghost use Rattle.range_core.specs.declared.fault.EventFault.TheVariants.{Stale};
ghost use Rattle.mount_parts.specs.MountView.{HasBlock, HasFile, file_at, stripe_at};
ghost use Rattle.range_core.specs.Kinds.{has_space, is_hole, is_mapped};
ghost use Rattle.mini_fs.specs.MapTurns.{MadeTurns, MakesTurn};
ghost use Rattle.mini_fs.specs.MapTurns.MapTurn.{Look, Place, Promise};
ghost use Rattle.mini_fs.specs.Mappings.{Allows, IsBegin, IsDirectWrite, IsGivenAt, IsLook, IsOverwrite, IsRoundOfDirect, IsTryOfWrite, IsWrite, LiesInStripe, TakesBack, TellsFrom, address_of, begin_fault, begun_of, blocks_asked, file_end, leaves_promises, mapping_of, refusal_of, type_of, wish_of};
ghost use Rattle.mini_fs.specs.Turns.{block_at};
ghost use Rattle.mini_fs.specs.PassView.{IsPassOf};

use crate::begun::Begun;
use crate::mount::Mount;
use crate::pass::Pass;
use iob_base::FileId;
use iomap_core::{BeginFault, Flags, Iomap, IomapOps, IomapType, MapFlags};
use range_core::{EventFault, Extent, Kind, Sample};
use std::sync::Wait;

// The type of a mapping of blocks of this kind.
fn type_of(kind: Kind) -> IomapType
    ensures { result ≡ type_of kind }
{
    match kind {
        Kind::Hole => IomapType::Hole,
        Kind::Delalloc => IomapType::Delalloc,
        Kind::Unwritten(_) => IomapType::Unwritten,
        Kind::Mapped(_) => IomapType::Mapped,
    }
}

fn is_hole(kind: Kind) -> bool
    ensures { result ≡ is_hole kind }
{
    matches!(kind, Kind::Hole)
}

fn has_space(kind: Kind) -> bool
    ensures { result ≡ has_space kind }
{
    matches!(kind, Kind::Unwritten(_) | Kind::Mapped(_))
}

fn is_mapped(kind: Kind) -> bool
    ensures { result ≡ is_mapped kind }
{
    matches!(kind, Kind::Mapped(_))
}

// The address of a block of the device, in bytes.
fn address(size: u64, number: u32) -> u64
    requires { size ≤ 4096 }
    ensures { result ≡ number * size }
{
    number as u64 * size
}

// Where blocks of this kind begin on the device, in bytes.
fn address_of(size: u64, kind: Kind) -> Option<u64>
    requires { size ≤ 4096 }
    ensures { result ≡ address_of size kind }
{
    match kind {
        Kind::Hole => None,
        Kind::Delalloc => None,
        Kind::Unwritten(number) => Some(address(size, number)),
        Kind::Mapped(number) => Some(address(size, number)),
    }
}

// The fault of a begin whose turn was refused for this. None where the begin tries again.
fn begin_fault(fault: EventFault) -> Option<BeginFault>
    ensures { result ≡ begin_fault fault }
{
    match fault {
        EventFault::Worn { cookie } => Some(BeginFault::Worn { cookie }),
        EventFault::NoMemory => Some(BeginFault::NoMemory),
        EventFault::NoSpace { wanted, found } => Some(BeginFault::NoSpace { wanted, found }),
        _ => None,
    }
}

// What a try of a begin whose turn was refused for this answers.
fn refusal_of(fault: EventFault) -> Option<Result<Begun, BeginFault>>
    ensures { result ≡ refusal_of fault }
{
    match begin_fault(fault) {
        Some(refusal) => Some(Err(refusal)),
        None => None,
    }
}

// Whether promises of space that its begin made may be left of a mapping.
fn leaves_promises(iomap: &Iomap, written: u64) -> bool
    ensures { result ≡ leaves_promises iomap.now written }
{
    if !iomap.flags.new {
        return false;
    }
    if !matches!(iomap.kind, IomapType::Delalloc) {
        return false;
    }
    written < iomap.length
}

impl Mount {
    // A number of blocks of a file, in bytes.
    fn bytes_of(&self, blocks: u64) -> u64
        requires { blocks ≤ 65536 }
        ensures { result ≡ blocks * self.now.geometry.block_size }
    {
        blocks * self.geometry().block_size() as u64
    }

    // The mapping that tells of a sample.
    fn begun(&self, file: FileId, sample: Sample, new: bool) -> Begun
        requires { LiesInStripe self.now file sample.extent }
        ensures is { result ≡ begun_of self.now file new sample }
        ensures tells { TellsFrom self.now file sample.extent.block result }
    {
        self.is_laid_out();
        let Extent {
            block,
            length,
            kind,
        } = sample.extent;
        let iomap = Iomap {
            file,
            addr: address_of(self.geometry().block_size() as u64, kind),
            offset: self.bytes_of(block),
            length: self.bytes_of(length),
            kind: type_of(kind),
            flags: MapFlags { new, stale: false },
            validity_cookie: sample.cookie,
        };
        Begun { iomap, sample }
    }

    // How many blocks the bytes from a position on meet, up to the file's end.
    fn blocks_asked(&self, file: FileId, pos: u64, length: u64) -> u64
        requires within { pos < file_end self.now file }
        requires some { 0 < length }
        ensures is { result ≡ blocks_asked self.now file pos length }
        ensures some { 0 < result }
    {
        self.is_laid_out();
        let left = self.bytes_of(self.blocks(file)) - pos;
        let last = pos + (length.min(left) - 1);
        self.block_at(last) + 1 - self.block_at(pos)
    }

    // A look at the extent of a block that is one of the file.
    fn look<R: Wait>(&self, rt: &R, pass: &mut Pass, file: FileId, block: u64, most: u64) -> Sample
        requires of { IsPassOf self.now pass.old }
        requires block { HasBlock self.now file block }
        requires some { 0 < most }
        ensures of { IsPassOf self.now pass.new }
        ensures turn { MakesTurn self.now file (Look block most result) pass.old pass.new }
        ensures given { IsGivenAt pass.new (stripe_at self.now file block) result }
        ensures starts { result.extent.block ≡ block }
        ensures lies { LiesInStripe self.now file result.extent }
    {
        self.is_laid_out();
        self.sample(rt, pass, file, block, most)
    }

    // Promises space to the blocks of a hole, as far as there is some. The pass was given the sample of it.
    fn promise<R: Wait>(
        &self,
        rt: &R,
        pass: &mut Pass,
        file: FileId,
        seen: Sample,
    ) -> Result<Sample, EventFault>
        requires of { IsPassOf self.now pass.old }
        requires cached { (file_at self.now file).mode ≡ Cached }
        requires hole { seen.extent.kind ≡ Hole }
        requires lies { LiesInStripe self.now file seen.extent }
        requires given { IsGivenAt pass.old (stripe_at self.now file seen.extent.block) seen }
        ensures of { IsPassOf self.now pass.new }
        ensures turn { MakesTurn self.now file (Promise seen seen.extent.length result) pass.old pass.new }
        ensures lies { IfOk result (λ promised. LiesInStripe self.now file promised.extent × (promised.extent.block ≡ seen.extent.block)) }
        ensures err { IfErr result (λ fault. begin_fault fault ≡ None → (now : ℕ) × (fault ≡ Stale seen.cookie now)) }
    {
        self.is_laid_out();
        self.reserve(rt, pass, file, seen, seen.extent.length)
    }

    // Gives sectors to all blocks of an extent.
    fn place<R: Wait>(
        &self,
        rt: &R,
        pass: &mut Pass,
        file: FileId,
        extent: Extent,
    ) -> Result<u64, EventFault>
        requires of { IsPassOf self.now pass.old }
        requires lies { LiesInStripe self.now file extent }
        ensures of { IsPassOf self.now pass.new }
        ensures turn { MakesTurn self.now file (Place extent.block extent.length result) pass.old pass.new }
        ensures err { IfErr result (λ fault. IsSome (begin_fault fault)) }
    {
        self.is_laid_out();
        self.preallocate(rt, pass, file, extent.block, extent.length)
    }

    // A mapping of blocks as they are.
    fn begin_look<R: Wait>(
        &self,
        rt: &R,
        pass: &mut Pass,
        file: FileId,
        block: u64,
        most: u64,
    ) -> Result<Begun, BeginFault>
        requires of { IsPassOf self.now pass.old }
        requires block { HasBlock self.now file block }
        requires some { 0 < most }
        ensures of { IsPassOf self.now pass.new }
        ensures made { MadeTurns self.now file (λ turns. IsLook self.now file block most turns result) pass.old pass.new }
        ensures tells { IfOk result (TellsFrom self.now file block) }
    {
        let seen = self.look(rt, pass, file, block, most);
        Ok(self.begun(file, seen, false))
    }
    // One try of a begin of a write. None where the sample was stale once space was to be promised.
    fn begin_write_once<R: Wait>(
        &self,
        rt: &R,
        pass: &mut Pass,
        file: FileId,
        block: u64,
        most: u64,
    ) -> Option<Result<Begun, BeginFault>>
        requires of { IsPassOf self.now pass.old }
        requires block { HasBlock self.now file block }
        requires some { 0 < most }
        requires cached { (file_at self.now file).mode ≡ Cached }
        ensures of { IsPassOf self.now pass.new }
        ensures made { MadeTurns self.now file (IsTryOfWrite self.now file block most result) pass.old pass.new }
        ensures tells { IfSome result (λ answer. IfOk answer (TellsFrom self.now file block)) }
    {
        let seen = self.look(rt, pass, file, block, most);
        if !is_hole(seen.extent.kind) {
            return Some(Ok(self.begun(file, seen, false)));
        }
        match self.promise(rt, pass, file, seen) {
            Ok(promised) => Some(Ok(self.begun(file, promised, true))),
            Err(fault) => refusal_of(fault),
        }
    }

    // A mapping to write blocks in the cache, where holes are promised space as far as there is some.
    fn begin_write<R: Wait>(
        &self,
        rt: &R,
        pass: &mut Pass,
        file: FileId,
        block: u64,
        most: u64,
    ) -> Result<Begun, BeginFault>
        requires of { IsPassOf self.now pass.old }
        requires block { HasBlock self.now file block }
        requires some { 0 < most }
        requires cached { (file_at self.now file).mode ≡ Cached }
        ensures of { IsPassOf self.now pass.new }
        ensures made { MadeTurns self.now file (λ turns. IsWrite self.now file block most turns result) pass.old pass.new }
        ensures tells { IfOk result (TellsFrom self.now file block) }
    {
        for _ in rt.forever() {
            match self.begin_write_once(rt, pass, file, block, most) {
                Some(answer) => return answer,
                None => {}
            }
        }
        unreachable!()
    }

    // One round of a begin of a direct write. None where blocks took sectors.
    fn begin_direct_once<R: Wait>(
        &self,
        rt: &R,
        pass: &mut Pass,
        file: FileId,
        block: u64,
        most: u64,
        new: bool,
    ) -> Option<Result<Begun, BeginFault>>
        requires of { IsPassOf self.now pass.old }
        requires block { HasBlock self.now file block }
        requires some { 0 < most }
        ensures of { IsPassOf self.now pass.new }
        ensures made { MadeTurns self.now file (IsRoundOfDirect self.now file block most new result) pass.old pass.new }
        ensures tells { IfSome result (λ answer. IfOk answer (TellsFrom self.now file block)) }
    {
        let seen = self.look(rt, pass, file, block, most);
        if has_space(seen.extent.kind) {
            return Some(Ok(self.begun(file, seen, new)));
        }
        match self.place(rt, pass, file, seen.extent) {
            Ok(_) => None,
            Err(fault) => refusal_of(fault),
        }
    }

    // A mapping to write blocks on the device, to which space is given where they have none.
    fn begin_direct<R: Wait>(
        &self,
        rt: &R,
        pass: &mut Pass,
        file: FileId,
        block: u64,
        most: u64,
    ) -> Result<Begun, BeginFault>
        requires of { IsPassOf self.now pass.old }
        requires block { HasBlock self.now file block }
        requires some { 0 < most }
        ensures of { IsPassOf self.now pass.new }
        ensures made { MadeTurns self.now file (λ turns. IsDirectWrite self.now file block most turns result) pass.old pass.new }
        ensures tells { IfOk result (TellsFrom self.now file block) }
    {
        let mut new = false;
        for _ in rt.forever() {
            match self.begin_direct_once(rt, pass, file, block, most, new) {
                Some(answer) => return answer,
                None => new = true,
            }
        }
        unreachable!()
    }

    // A mapping to write mapped blocks on the device, where the first one is mapped.
    fn begin_overwrite<R: Wait>(
        &self,
        rt: &R,
        pass: &mut Pass,
        file: FileId,
        block: u64,
        most: u64,
    ) -> Result<Begun, BeginFault>
        requires of { IsPassOf self.now pass.old }
        requires block { HasBlock self.now file block }
        requires some { 0 < most }
        ensures of { IsPassOf self.now pass.new }
        ensures made { MadeTurns self.now file (λ turns. IsOverwrite self.now file block most turns result) pass.old pass.new }
        ensures tells { IfOk result (TellsFrom self.now file block) }
    {
        let seen = self.look(rt, pass, file, block, most);
        if !is_mapped(seen.extent.kind) {
            return Err(BeginFault::NotOverwrite { block });
        }
        Ok(self.begun(file, seen, false))
    }

    // A mapping as the flags wish.
    fn begin_as<R: Wait>(
        &self,
        rt: &R,
        pass: &mut Pass,
        file: FileId,
        block: u64,
        most: u64,
        flags: Flags,
    ) -> Result<Begun, BeginFault>
        requires of { IsPassOf self.now pass.old }
        requires block { HasBlock self.now file block }
        requires some { 0 < most }
        requires allowed { Allows self.now file flags }
        ensures of { IsPassOf self.now pass.new }
        ensures made { MadeTurns self.now file (λ turns. IsBegin self.now file block most (wish_of flags) turns result) pass.old pass.new }
        ensures tells { IfOk result (TellsFrom self.now file block) }
    {
        if !flags.write {
            return self.begin_look(rt, pass, file, block, most);
        }
        if flags.dax {
            return self.begin_look(rt, pass, file, block, most);
        }
        if !flags.direct {
            return self.begin_write(rt, pass, file, block, most);
        }
        if flags.overwrite_only {
            return self.begin_overwrite(rt, pass, file, block, most);
        }
        self.begin_direct(rt, pass, file, block, most)
    }

    // Takes back what a begin promised and may be left of its mapping.
    fn take_back<R: Wait>(&self, rt: &R, pass: &mut Pass, begun: Begun, iomap: &Iomap, written: u64)
        requires of { IsPassOf self.now pass.old }
        requires lies { LiesInStripe self.now iomap.now.file begun.sample.extent }
        ensures of { IsPassOf self.now pass.new }
        ensures made { MadeTurns self.now iomap.now.file (TakesBack (leaves_promises iomap.now written) begun.sample.extent) pass.old pass.new }
    {
        if !leaves_promises(iomap, written) {
            return;
        }
        self.is_laid_out();
        let Extent { block, length, .. } = begun.sample.extent;
        self.unreserve(rt, pass, iomap.file, block, length);
    }
}

impl IomapOps for Mount {
    ghost use Rattle.mini_fs.specs.Mappings.{Begins, Ends, IsOpen, open-is-of, stale-is-open};

    type Pass = Pass;

    ghost is_of = { λ m p. IsPassOf m p };

    ghost file_end = { λ m file. file_end m file };

    ghost allows = { λ m file flags. Allows m file flags };

    ghost begins = { λ m p file pos length flags answer q. Begins m p file pos length flags answer q };

    ghost is_open = { λ m p iomap. IsOpen m p iomap };

    ghost ends = { λ m p iomap written q. Ends m p iomap written q };

    fn begin<R: Wait>(
        &self,
        rt: &R,
        pass: &mut Pass,
        file: FileId,
        pos: u64,
        length: u64,
        flags: Flags,
    ) -> Result<Iomap, BeginFault> {
        self.is_laid_out();
        let most = self.blocks_asked(file, pos, length);
        let block = self.block_at(pos);
        match self.begin_as(rt, pass, file, block, most, flags) {
            Ok(begun) => {
                pass.note(Some(begun));
                Ok(begun.iomap)
            }
            Err(fault) => Err(fault),
        }
    }

    fn end<R: Wait>(&self, rt: &R, pass: &mut Pass, iomap: Iomap, written: u64) {
        let Some(begun) = pass.begun() else {
            unreachable!()
        };
        self.take_back(rt, pass, begun, &iomap, written);
        pass.note(None);
    }

    ghost open_is_of = { λ m p iomap is. open-is-of m p iomap is };

    ghost stale_is_open = { λ m p iomap is. stale-is-open m p iomap is };
}

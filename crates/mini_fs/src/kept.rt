//! From the start of a mount to its end no sector is lost. The law is a function that does nothing.
ghost use Rattle.std.specs.Prelude.{◌≡◌, ◌+◌, ℕ, List, All};
ghost use Rattle.iob_base.specs.DeviceBlock.{DeviceBlock};
ghost use Rattle.iob_base.specs.Layout.{Layout};
ghost use Rattle.io_model.specs.declared.file.FileSpec.{FileSpec};
ghost use Rattle.io_model.specs.declared.file.Unmounted.{Unmounted};
ghost use Rattle.file_stripes.specs.Files.{IsFile};
ghost use Rattle.turn_cell.specs.Stakes.{total};
ghost use Rattle.turn_cell.specs.Views.{SeatView};
ghost use Rattle.range_core.specs.declared.entry.Entry.{Entry};
ghost use Rattle.size_core.specs.declared.entry.SizeEntry.{SizeEntry};
ghost use Rattle.mount_parts.specs.MountView.{IsLaidOut, MountView};
ghost use Rattle.mount_parts.specs.Unmounts.{Unmounts, file_numbers};
ghost use Rattle.mini_fs.specs.PassView.{PassView};
ghost use Rattle.mini_fs.specs.Starts.{Started};

/// The sectors of all blocks at the end and the free ones together have the numbers that the device had at the start, each as
/// often: however numbers are weighed, both weigh the same.
pub fn numbers_are_kept()
    ensures { (geometry : Layout) (cookie : ℕ) (sectors : List DeviceBlock) (files : List FileSpec) (m : MountView) (first : PassView) (stripes : List (SeatView Entry)) (sizes : List (SeatView SizeEntry)) (u : Unmounted) → All IsFile files → Started geometry cookie sectors files m first → IsLaidOut m → Unmounts m stripes sizes u → (f : ℕ → ℕ) → total f (file_numbers u.files) + total (λ s. f s.number) u.free ≡ total (λ s. f s.number) sectors }
{}

//! Theorems that other crates may use.

ghost use Rattle.mx_outside.specs.Disks.{Disk, IsImage};
ghost use Rattle.mx_images.specs.Fair.{IsFair, IsFairEnd};

/// A theorem, which does nothing when it is called: a crash image of a disk is fair where no end of a
/// file reads as a block that wasn't appended there.
pub fn images_are_fair()
    ensures { (disk image : Disk) → IsImage IsFairEnd disk image → IsFair disk image.now }
{}

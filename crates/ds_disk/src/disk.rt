//! The disk as the crates above see it.
ghost use Rattle.std.specs.Prelude.{◌≡◌, ℕ, ◌<◌, ◌≤◌, Bool, List, length, take, drop, IsTrue, IfOk, OnOk, OnErr};
ghost use Rattle.ds_io.specs.Faults.{Rose, next_count};
ghost use Rattle.ds_disk.specs.Crashes.{written, length_written, NoOthers, Only, Follows, Torn, Cut, Elapses};

use ds_io::Failed;

/// One file of bytes on a disk, of which a crash may lose what was not synced.
///
/// A disk has contents, which are what a read gives, and images, which are what a crash at this moment may leave; the
/// contents are one of them. Between two syncs each written range, and all past the old end up to the new one, may hold
/// any bytes. After a cut that isn't synced, what was cut may still be there, with any bytes. The length of an image is
/// any from the least to the greatest since the last sync. All else stays. A sync that succeeds leaves one image, the
/// contents. A call that fails leaves only images that were there before it, or that the same write or cut, made and
/// not yet synced, could leave, and the contents are one of them.
///
/// A disk is honest where all that holds. Whether it is can't be tested, and no call changes it: so each clause on
/// contents and images holds where the disk was honest before the call, and a theorem over it is about honest disks.
/// A moment is a number that doesn't fall, by which a clause can speak of a crash inside a call. A failure counts one
/// fault more, and nothing else does.
pub trait Disk {
    // Whether it is honest.
    ghost is_honest: { Self → Bool };

    // What a read gives.
    ghost contents: { Self → List ℕ };

    // What a crash at this moment may leave.
    ghost images: { Self → List ℕ → Type 0 };

    // The moment, as a number that doesn't fall.
    ghost moment: { Self → ℕ };

    // What a crash at some moment from that one on might have left, during a call or between two.
    ghost left_since: { Self → ℕ → List ℕ → Type 0 };

    // How many faults there were so far.
    ghost faults: { Self → ℕ };

    /// The number of bytes.
    fn len(&mut self) -> Result<u64, Failed>
        ensures gives_the_length { IfOk result (λ n. IsTrue (is_honest self.old) → n ≡ length (contents self.old)) }
        ensures contents_stay { OnOk result (IsTrue (is_honest self.old) → contents self.new ≡ contents self.old) }
        ensures crash { IsTrue (is_honest self.old) → NoOthers (images self.old) (images self.new) }
        ensures time { Elapses (moment self.old) (moment self.new) (left_since self.old) (left_since self.new) (images self.new) }
        ensures honest { is_honest self.new ≡ is_honest self.old }

        ensures failed_by_a_fault { OnErr result (Rose (faults self.old) (faults self.new)) }
        ensures counts_a_failure { OnErr result (faults self.new ≡ next_count (faults self.old)) }
        ensures counts_nothing_else { OnOk result (faults self.new ≡ faults self.old) }
        ensures faults_stay_counted { faults self.old ≤ faults self.new };

    /// Reads the bytes from `at` on into the front of `buf` and gives their number, which is at least 1 where `at` is
    /// below the length and `buf` has room. What `buf` holds past that number, or after a failure, is not said.
    fn read(&mut self, at: u64, buf: &mut [u8]) -> Result<usize, Failed>
        ensures within { IfOk result (λ n. n ≤ length buf.new) }
        ensures gives_some { IfOk result (λ n. IsTrue (is_honest self.old) → at < length (contents self.old) → 0 < length buf.new → 0 < n) }
        ensures bytes { IfOk result (λ n. IsTrue (is_honest self.old) → take n buf.new ≡ take n (drop at (contents self.old))) }
        ensures contents_stay { OnOk result (IsTrue (is_honest self.old) → contents self.new ≡ contents self.old) }
        ensures crash { IsTrue (is_honest self.old) → NoOthers (images self.old) (images self.new) }
        ensures time { Elapses (moment self.old) (moment self.new) (left_since self.old) (left_since self.new) (images self.new) }
        ensures honest { is_honest self.new ≡ is_honest self.old }

        ensures failed_by_a_fault { OnErr result (Rose (faults self.old) (faults self.new)) }
        ensures counts_a_failure { OnErr result (faults self.new ≡ next_count (faults self.old)) }
        ensures counts_nothing_else { OnOk result (faults self.new ≡ faults self.old) }
        ensures faults_stay_counted { faults self.old ≤ faults self.new };

    /// Writes the whole of `piece` from `at` on, over what is there and past the end. A gap between the end and `at` is
    /// filled with zeros; an empty piece changes nothing. A place that no file has, as one past 2^63 - 1, is a failure.
    fn write_at(&mut self, at: u64, piece: &[u8]) -> Result<(), Failed>
        ensures written { OnOk result (IsTrue (is_honest self.old) → contents self.new ≡ written (contents self.old) at piece.now) }
        ensures crash { IsTrue (is_honest self.old)
            → Follows (Torn at (length piece.now) (length_written (contents self.old) at piece.now)) (images self.old) (images self.new) }
        ensures time { Elapses (moment self.old) (moment self.new) (left_since self.old) (left_since self.new) (images self.new) }
        ensures honest { is_honest self.new ≡ is_honest self.old }

        ensures failed_by_a_fault { OnErr result (Rose (faults self.old) (faults self.new)) }
        ensures counts_a_failure { OnErr result (faults self.new ≡ next_count (faults self.old)) }
        ensures counts_nothing_else { OnOk result (faults self.new ≡ faults self.old) }
        ensures faults_stay_counted { faults self.old ≤ faults self.new };

    /// Cuts the contents to their first `len` bytes. Where there are no more than `len`, they stay as they are.
    fn cut(&mut self, len: u64) -> Result<(), Failed>
        ensures cut { OnOk result (IsTrue (is_honest self.old) → contents self.new ≡ take len (contents self.old)) }
        ensures crash { IsTrue (is_honest self.old) → Follows (Cut len) (images self.old) (images self.new) }
        ensures time { Elapses (moment self.old) (moment self.new) (left_since self.old) (left_since self.new) (images self.new) }
        ensures honest { is_honest self.new ≡ is_honest self.old }

        ensures failed_by_a_fault { OnErr result (Rose (faults self.old) (faults self.new)) }
        ensures counts_a_failure { OnErr result (faults self.new ≡ next_count (faults self.old)) }
        ensures counts_nothing_else { OnOk result (faults self.new ≡ faults self.old) }
        ensures faults_stay_counted { faults self.old ≤ faults self.new };

    /// Puts all that was written or cut on the disk. From then on a crash leaves the contents and nothing else, until
    /// the next write or cut.
    fn sync(&mut self) -> Result<(), Failed>
        ensures durable { OnOk result (IsTrue (is_honest self.old) → Only (contents self.new) (images self.new)) }
        ensures contents_stay { OnOk result (IsTrue (is_honest self.old) → contents self.new ≡ contents self.old) }
        ensures crash { IsTrue (is_honest self.old) → NoOthers (images self.old) (images self.new) }
        ensures time { Elapses (moment self.old) (moment self.new) (left_since self.old) (left_since self.new) (images self.new) }
        ensures honest { is_honest self.new ≡ is_honest self.old }

        ensures failed_by_a_fault { OnErr result (Rose (faults self.old) (faults self.new)) }
        ensures counts_a_failure { OnErr result (faults self.new ≡ next_count (faults self.old)) }
        ensures counts_nothing_else { OnOk result (faults self.new ≡ faults self.old) }
        ensures faults_stay_counted { faults self.old ≤ faults self.new };

    // The contents of an honest disk are one of its images.
    ghost contents_may_stay: { (disk : Self) → IsTrue (is_honest disk) → images disk (contents disk) };

    // This moment is one of those since an earlier one.
    ghost counts_now: { (disk : Self) (t : ℕ) (image : List ℕ) → t ≤ moment disk → images disk image → left_since disk t image };

    // Since this moment there is no other.
    ghost only_now: { (disk : Self) (image : List ℕ) → left_since disk (moment disk) image → images disk image };
}

// Moves what a test chooses to the front of a slice, which has no `retain`.
ghost use Rattle.std.specs.Prelude.{◌≡◌, ◌≤◌, length, take};
ghost use Rattle.std.specs.Fn.{CalledAt};
ghost use Rattle.std.specs.List.Retain.{IsFiltered};

// Answers how many it chose.
pub(crate) fn sift<T: Copy, F: FnMut(&T) -> bool>(records: &mut [T], mut test: F) -> usize
    requires { F.IsAlwaysCallable test }
    ensures within { result ≤ length records.old }
    ensures length { length records.new ≡ length records.old }
    ensures chosen { IsFiltered (CalledAt F.FnMut) test records.old (take result records.new) }
{
    let mut chosen = 0;
    for i in 0..records.len() {
        let x = records[i];
        if test(&x) {
            records[chosen] = x;
            chosen += 1;
        }
    }
    chosen
}

// Closing up a slice: some of its items, each perhaps changed, come to stand at its front, in place and in order.
ghost use Rattle.std.specs.Prelude.{◌≤◌, length, take};
ghost use Rattle.matching.specs.ClosingUp.{KeptAs};

// Asks what is kept of each item, if anything, and closes up. Answers how many are kept; they stand at the front.
pub fn close_up<T: Copy, F: Fn(&T) -> Option<T>>(items: &mut [T], keep: F) -> usize
    requires { F.IsAlwaysCallable keep }
    ensures front { KeptAs F.Fn keep items.old (take result items.new) }
    ensures bound { result ≤ length items.old }
{
    let mut end = 0;
    // By index: an item is read at one place and written at an earlier one, and no iterator lends both.
    for place in 0..items.len() {
        if let Some(item) = keep(&items[place]) {
            items[end] = item;
            end += 1;
        }
    }
    end
}

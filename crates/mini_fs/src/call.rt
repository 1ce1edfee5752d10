//! The number of a pass's call.
ghost use Rattle.std.specs.Prelude.{◌≡◌, ◌<◌};
ghost use Rattle.mini_fs.specs.CallActs.{tag_of, with_call};

use crate::pass::Pass;
use iob_base::Tag;

impl Pass {
    /// Begins a call of this number, which is greater than the last one's, and gives the tag of what the call does.
    pub fn start_call(&mut self, call: u32) -> Tag
        requires later { self.old.last < call }
        ensures pass { self.new ≡ with_call self.old call }
        ensures tag { result ≡ tag_of self.old call }
    {
        self.last = call;
        Tag {
            caller: self.caller,
            call,
        }
    }
}

//! What the words of the contracts say together.
ghost use Rattle.iov_iter.specs.Laws.{TakenPagesFit, TakenPagesGoBack};

/// Pages that were taken fit in their places, and with them there the iov is the one that was.
pub fn taken_pages_go_back()
    ensures fit { TakenPagesFit }
    ensures back { TakenPagesGoBack }
{}

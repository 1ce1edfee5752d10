//! What the truth of a pool means, whatever its history is. The law is a function that does nothing.
ghost use Rattle.space_pool.specs.Truth.{HistoryTellsTheFree};

/// The free sectors are a function of the history: two pools that began with the same sectors and have the same history
/// have the same sectors free.
pub fn history_tells_the_free()
    ensures { HistoryTellsTheFree }
{}

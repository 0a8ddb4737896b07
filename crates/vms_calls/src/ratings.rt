ghost use Rattle.vms_calls.specs.Ratings.{RatingCovers};

/// The steps that rate a zone leave a mark that covers what all CPUs may hide then, whatever threshold they set.
pub fn ratings_cover()
    ensures { RatingCovers }
{}

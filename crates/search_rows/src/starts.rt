// Where the scans begin among the gathered detections.
ghost use Rattle.search_rows.specs.Rows.{Starts};

use bounds::STARTS;

// Where the detections of each scan begin among those gathered, and where those of the last one end.
#[derive(Clone, Copy)]
pub struct StartsRef<'a> {
    pub places: &'a [usize; STARTS],
    pub ghost rise: { Starts places.now },
}

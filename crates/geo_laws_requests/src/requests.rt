//! Laws of requests in each legal log: an accepted request is answered once, by the result of the requests to disks
//! that it came to, which go exactly over its sectors; at rest each one is answered (g_bio(9)).
ghost use Rattle.geo_laws_requests.specs.RequestLaws.{LegalLogsCompleteRequests};

/// In each legal log a request completes at most once, and at rest exactly once; a bio is taken at most once; and all
/// that a history keeps holds.
#[tactic(auto, using(crate::proofs::Complete::legal_logs_complete_requests))]
pub fn legal_logs_complete_requests()
    ensures { LegalLogsCompleteRequests }
{}

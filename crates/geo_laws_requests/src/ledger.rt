//! Laws of requests: the ledger that ties a history to the world that it leads to (g_bio(9)).
ghost use Rattle.geo_laws_requests.specs.Ledger.{StepsKeepLedger};

/// Each step keeps the ledger of requests: what the log tells of each bio is what becomes of it.
pub fn steps_keep_ledger()
    ensures { StepsKeepLedger }
{}

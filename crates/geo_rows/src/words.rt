//! Worked examples of the words `sweep`, `watch`, `trace` and `verify`, proved by computation.
#![tactic(auto, unfolding(crate::proofs::Computed::computed))]

ghost use Rattle.geo_headline.specs.Endings.{Answered, BadWords, NoTrace, due_text};
ghost use Rattle.geo_headline.specs.Traces.{InTrace};
ghost use Rattle.geo_headline.specs.Verifying.{verified};
ghost use Rattle.geo_headline.specs.declared.verified.Verified.TheVariants as found;
ghost use Rattle.geo_model.specs.Script.{script};
ghost use Rattle.geo_base.specs.declared.request.BioCmd.TheVariants as cmds;
ghost use Rattle.geo_rows.specs.WorkedSweeps.{changes_asked, sweeping_facts, sweeping_plan, sweeping_script, sweeping_text, swept_log, swept_report, swept_slice_text, synced_slice_facts, synced_slice_plan, synced_slice_script, synced_slice_text};
ghost use Rattle.geo_rows.specs.Rows.{assembling_facts, assembling_plan, first_facts, first_plan, large_users_facts, pulling_facts, pulling_plan, slice_facts, slice_plan};
ghost use Rattle.geo_rows.specs.Scripts.{assembling_script, first_script, pulling_script};
ghost use Rattle.geo_rows.specs.WorkedTraces.{image_users_plan, image_users_script, jump_trace, long_trace, other_report_trace, short_trace, taste_facts, taste_plan, taste_script, traced, whole_trace};
ghost use Rattle.geo_rows.specs.WorkedViews.{early_listing_plan, early_listing_script, early_listing_watched, first_watched, listing_facts, listing_plan, listing_script, listing_watched, log_by_seat, watched};
ghost use Rattle.std.specs.Prelude.{Err, Ok, codes, length, [], ◌∷◌, ◌≡◌};

/// In the elevator order requests are taken by rising place and none passes a FLUSH; commands come before the disks'
/// work, so that a close may find its write still out.
pub fn worked_sweeps()
    ensures sweeping_script { script sweeping_script ≡ Ok sweeping_plan }
    ensures sweeping_report { swept_report 400 sweeping_plan sweeping_facts ≡ sweeping_text }
    ensures sweeping_asked { changes_asked (swept_log 400 sweeping_plan sweeping_facts)
        ≡ (cmds.Write, 1) ∷ (cmds.Write, 4) ∷ (cmds.Flush, 0) ∷ (cmds.Write, 0) ∷ [] }
    ensures swept_slice_report { swept_report 400 slice_plan slice_facts ≡ swept_slice_text }
    ensures synced_slice_script { script synced_slice_script ≡ Ok synced_slice_plan }
    ensures synced_slice_report { swept_report 400 synced_slice_plan synced_slice_facts ≡ synced_slice_text }
{}

/// What a watched run prints: the report, and behind it the mesh as it was listed last to the client of the first
/// actor, or that of the opening where it was listed to no client.
pub fn worked_views()
    ensures first { watched 0 400 first_script first_plan first_facts ≡ first_watched }
    ensures first_by_client { watched 1 400 first_script first_plan first_facts ≡ first_watched }
    ensures listing_script { script listing_script ≡ Ok listing_plan }
    ensures listing { watched 0 400 listing_script listing_plan listing_facts ≡ listing_watched (codes "0") }
    // the listing is the last entry
    ensures listing_length { length (log_by_seat 1 400 listing_plan listing_facts) ≡ 37 }
    ensures listing_by_client { watched 1 400 listing_script listing_plan listing_facts
        ≡ listing_watched (codes "37") }
    ensures early_listing_script { script early_listing_script ≡ Ok early_listing_plan }
    ensures early_listing { watched 1 400 early_listing_script early_listing_plan listing_facts
        ≡ early_listing_watched }
{}

/// The trace of a run says how its log is made again, and is found to be true; a text that is almost this trace is told
/// why it isn't.
pub fn worked_traces()
    ensures whole_trace { traced 400 taste_script taste_plan taste_facts ≡ whole_trace }
    ensures whole { verified whole_trace ≡ Ok found.Yes }
    ensures short { verified short_trace ≡ Ok found.NotAtRest }
    ensures long { verified long_trace ≡ Ok (found.NotEnabled 11) }
    ensures other_report { verified other_report_trace ≡ Ok found.OtherReport }
    ensures jump { verified jump_trace ≡ Err (InTrace 5) }
    ensures pulling { verified (traced 400 pulling_script pulling_plan pulling_facts) ≡ Ok found.Yes }
    ensures assembling { verified (traced 400 assembling_script assembling_plan assembling_facts) ≡ Ok found.Yes }
    ensures image_users { verified (traced 400 image_users_script image_users_plan large_users_facts) ≡ Ok found.Yes }
{}

/// What is printed of an answer, of a line that is no step, and how the program is used.
pub fn worked_endings()
    ensures yes { due_text [] (Answered found.Yes) ≡ codes "yes\n" }
    ensures line { due_text [] (Answered (found.NotEnabled 11)) ≡ codes "no: line 11\n" }
    ensures rest { due_text [] (Answered found.NotAtRest) ≡ codes "no: not at rest\n" }
    ensures report { due_text [] (Answered found.OtherReport) ≡ codes "no: report\n" }
    ensures no_trace { due_text [] (NoTrace 5) ≡ codes "line 5: trace\n" }
    ensures usage { due_text [] BadWords
        ≡ codes "usage: geomrun step | run | gen START COUNT | sweep | watch | trace | verify\n" }
{}

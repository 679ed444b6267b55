//! Worked examples of the model, proved by computation.
#![tactic(auto, unfolding(crate::proofs::Computed::computed))]

ghost use Rattle.geo_base.specs.declared.decline.DeclineCause.TheVariants as declines;
ghost use Rattle.geo_base.specs.declared.errno.Errno.TheVariants.{EBUSY, EDEEP, EEXIST, EIO, ELOOP, ENXIO, EOVERFLOW, EPERM};
ghost use Rattle.geo_model.specs.Generator.{draws};
ghost use Rattle.geo_headline.specs.Modes.{Accepts, GenMode, SweepMode, TraceMode, VerifyMode, WatchMode};
ghost use Rattle.geo_model.specs.Log.{made, replay};
ghost use Rattle.geo_model.specs.Opening.{opening};
ghost use Rattle.geo_model.specs.Place.{pieces, place};
ghost use Rattle.geo_model.specs.Rank.{rank};
ghost use Rattle.geo_model.specs.Records.{concat_record, concat_sector, label_record, label_sector, mbr_table, stripe_record, stripe_sector};
ghost use Rattle.geo_rows.specs.Rows.{assembling_facts, assembling_plan, assembling_text, boundaries_facts, boundaries_plan, boundaries_text, bytes_of, counts, diamond_facts, diamond_plan, diamond_text, exclusion_facts, exclusion_plan, exclusion_text, failing_nop_facts, failing_nop_plan, failing_nop_text, first_facts, first_plan, first_text, hostile_table_facts, hostile_table_plan, hostile_table_text, joining_facts, joining_plan, joining_text, labelling_facts, labelling_plan, labelling_text, large_users_facts, large_users_text, pulling_facts, pulling_plan, pulling_text, report_of, slice_facts, slice_plan, slice_text, spoiling_facts, spoiling_plan, spoiling_text, striping_facts, striping_plan, striping_text, two_users_facts, two_users_plan, two_users_text};
ghost use Rattle.geo_headline.specs.Outside.{failures_of};
ghost use Rattle.geo_model.specs.Script.{empty_plan, script};
ghost use Rattle.geo_rows.specs.Scripts.{assembling_script, boundaries_script, diamond_script, equal_neighbours_script, exclusion_script, failing_nop_script, fault, first_script, generated_summary, hostile_table_script, joining_script, labelling_script, late_header_script, left_over_script, missing_script, no_counts_script, no_lines_summary, odd_sector_script, pulling_script, same_disk_script, slice_script, spoiling_script, stranger_script, striping_script, three_lines_summary, two_spaces_script, two_users_script, unknown_script, zero_in_front_script};
ghost use Rattle.geo_model.specs.Step.{step};
ghost use Rattle.geo_rows.specs.StepLists.{by_seat_0, errors_met, failed_read, failing_world, log_of_steps, opened_world, fill_of, go_step as next_of, pulled_early, pulled_late, read_in_reverse, reply_after, second_up_first, sliced_world, spoiled_world, striped_world};
ghost use Rattle.geo_model.specs.Topology.{provider_at, set_error};
ghost use Rattle.geo_rows.specs.Towers.{disk_counts, floor_name, top_refusal, tower_world};
ghost use Rattle.geo_rows.specs.WorkedIdle.{run_answers_once, run_frees_idle};
ghost use Rattle.geo_rows.specs.WorkedLaws.{all_due, all_gone, held_by_log, held_by_run, measure_falls, replies_by_log, replies_given, same_sectors};
ghost use Rattle.geo_rows.specs.WorkedParts.{chain, concat_refusal, concat_refusal_over, loose_refusal, makes_slice, one_entry, piece, spot, three_way, three_way_provider};
ghost use Rattle.geo_rows.specs.WorkedSteady.{run_is_steady, steady_along};
ghost use Rattle.geo_rows.specs.WorkedSound.{is_sound, run_is_sound, sound_along};
ghost use Rattle.geo_model.specs.World.{World};
ghost use Rattle.geo_rows.specs.WorkedWords.{AskNothing, gen_words};
ghost use Rattle.geo_model.specs.declared.command.Cause.TheVariants as causes;
ghost use Rattle.geo_model.specs.declared.step.Found.TheVariants as found;
ghost use Rattle.geo_model.specs.declared.step.Phase.TheVariants as phases;
ghost use Rattle.geo_model.specs.declared.step.Reply.TheVariants as replies;
ghost use Rattle.geo_model.specs.declared.step.Step.TheVariants as steps;
ghost use Rattle.std.specs.Prelude.{Err, None, Ok, Some, [], codes, false, replicate, true, ◌++◌, ◌-◌, ◌^◌, ◌∷◌, ◌≡◌};

/// Each plan, run in the fixed order over memory disks of zeros, gives its report.
pub fn worked_runs()
    ensures first_report { report_of 400 first_plan first_facts ≡ first_text }
    ensures exclusion_report { report_of 400 exclusion_plan exclusion_facts ≡ exclusion_text }
    ensures boundaries_report { report_of 400 boundaries_plan boundaries_facts ≡ boundaries_text }
    ensures slice_report { report_of 400 slice_plan slice_facts ≡ slice_text }
    ensures hostile_table_report { report_of 400 hostile_table_plan hostile_table_facts ≡ hostile_table_text }
    ensures spoiling_report { report_of 400 spoiling_plan spoiling_facts ≡ spoiling_text }
    ensures pulling_report { report_of 400 pulling_plan pulling_facts ≡ pulling_text }
    ensures joining_report { report_of 400 joining_plan joining_facts ≡ joining_text }
    ensures striping_report { report_of 400 striping_plan striping_facts ≡ striping_text }
    ensures diamond_report { report_of 400 diamond_plan diamond_facts ≡ diamond_text }
    ensures failing_nop_report { report_of 400 failing_nop_plan failing_nop_facts ≡ failing_nop_text }
    ensures assembling_report { report_of 400 assembling_plan assembling_facts ≡ assembling_text }
    ensures labelling_report { report_of 400 labelling_plan labelling_facts ≡ labelling_text }
    ensures two_users_report { report_of 400 two_users_plan two_users_facts ≡ two_users_text }
    ensures large_users_report { report_of 400 two_users_plan large_users_facts ≡ large_users_text }
{}

/// Each text is the script of its plan, or has its fault; and what is made from a number.
pub fn worked_scripts()
    ensures exclusion_script { script exclusion_script ≡ Ok exclusion_plan }
    ensures boundaries_script { script boundaries_script ≡ Ok boundaries_plan }
    ensures slice_script { script slice_script ≡ Ok slice_plan }
    ensures hostile_table_script { script hostile_table_script ≡ Ok hostile_table_plan }
    ensures spoiling_script { script spoiling_script ≡ Ok spoiling_plan }
    ensures pulling_script { script pulling_script ≡ Ok pulling_plan }
    ensures joining_script { script joining_script ≡ Ok joining_plan }
    ensures striping_script { script striping_script ≡ Ok striping_plan }
    ensures diamond_script { script diamond_script ≡ Ok diamond_plan }
    ensures failing_nop_script { script failing_nop_script ≡ Ok failing_nop_plan }
    ensures assembling_script { script assembling_script ≡ Ok assembling_plan }
    ensures labelling_script { script labelling_script ≡ Ok labelling_plan }
    ensures two_users_script { script two_users_script ≡ Ok two_users_plan }
    ensures first_script { script first_script ≡ Ok first_plan }
    ensures no_counts_fault { script no_counts_script ≡ fault 3 causes.Counts }
    ensures equal_neighbours_fault { script equal_neighbours_script ≡ fault 3 causes.Runs }
    ensures late_header_fault { script late_header_script ≡ fault 4 causes.Header }
    ensures same_disk_fault { script same_disk_script ≡ fault 4 causes.Twice }
    ensures stranger_fault { script stranger_script ≡ fault 2 causes.Actor }
    ensures two_spaces_fault { script two_spaces_script ≡ fault 2 causes.Space }
    ensures zero_in_front_fault { script zero_in_front_script ≡ fault 2 causes.Number }
    ensures odd_sector_fault { script odd_sector_script ≡ fault 1 causes.Range }
    ensures left_over_fault { script left_over_script ≡ fault 2 causes.Words }
    ensures missing_fault { script missing_script ≡ fault 2 causes.Words }
    ensures unknown_fault { script unknown_script ≡ fault 2 causes.Word }
    ensures first_draws { draws 9 1 ≡ 16838 ∷ 5758 ∷ 10113 ∷ 17515 ∷ 31051 ∷ 5627 ∷ 23010 ∷ 7419 ∷ 16212 ∷ [] }
    ensures no_lines_summary { generated_summary 400 1 0 ≡ no_lines_summary }
    ensures three_lines_summary { generated_summary 400 1 3 ≡ three_lines_summary }
    // the empty text is a script, and its report is empty
    ensures empty_script { script [] ≡ Ok empty_plan }
    ensures empty_report { report_of 1 empty_plan [] ≡ [] }
{}

/// Lists of steps in other orders give these replies.
pub fn worked_step_lists()
    ensures pulled_early_reply { reply_after sliced_world (pulled_early sliced_world) 9 ≡ Some (replies.Refused ENXIO) }
    ensures pulled_late_reply { reply_after sliced_world (pulled_late sliced_world) 9
        ≡ Some (replies.Bytes (fill_of 0)) }
    ensures close_while_out_reply { reply_after sliced_world (next_of 0 ∷ next_of 0 ∷ []) 10
        ≡ Some (replies.Refused EBUSY) }
    ensures take_of_waiting_found { let w = sliced_world in
        step (replay w (made w (by_seat_0 (next_of 0 ∷ steps.Start w.next_bio ∷ [])))) 0 (steps.Take 0 w.next_bio)
        ≡ Err (found.InPhase phases.Waiting) }
    ensures spoiled_writer { reply_after spoiled_world (next_of 0 ∷ next_of 1 ∷ []) 10 ≡ Some replies.Ok }
    ensures spoiled_reader { reply_after spoiled_world (next_of 0 ∷ next_of 1 ∷ []) 14 ≡ Some (replies.Refused EPERM) }
    ensures read_in_reverse_reply { reply_after striped_world (read_in_reverse striped_world) 7
        ≡ Some (replies.Bytes
        (bytes_of ((0, 512) ∷ (1, 512) ∷ (2, 512) ∷ (3, 512) ∷ (4, 512) ∷ (5, 512) ∷ (6, 512) ∷ []))) }
    ensures nop_first_reply { let w = failing_world (codes "md0.nop") (codes "md1") in
        reply_after w (second_up_first w) 8 ≡ Some (replies.Refused EIO) }
    ensures pulled_first_reply { let w = failing_world (codes "md1") (codes "md0.nop") in
        reply_after w (second_up_first w) 8 ≡ Some (replies.Refused ENXIO) }
    // a disk that fails its call
    ensures failed_read_reply { reply_after opened_world (failed_read opened_world) 4 ≡ Some (replies.Refused EIO) }
    ensures failed_read_failures { failures_of (log_of_steps opened_world (failed_read opened_world)) 0 ≡ 1 }
    // the errors that a bio met stand in piece order, whichever piece went up first
    ensures nop_first_errors { let w = failing_world (codes "md0.nop") (codes "md1") in
        errors_met w (second_up_first w) w.next_bio ≡ EIO ∷ ENXIO ∷ [] }
    ensures pulled_first_errors { let w = failing_world (codes "md1") (codes "md0.nop") in
        errors_met w (second_up_first w) w.next_bio ≡ ENXIO ∷ EIO ∷ [] }
{}

/// Counts double from floor to floor of a tower of concats.
pub fn worked_towers()
    ensures five_floors_counts { disk_counts 5 (counts 1 0 0) ≡ counts (2 ^ 5) 0 (2 ^ 6 - 2) }
    ensures five_floors_fits { top_refusal 5 (counts (2 ^ 26 - 1) 0 0) ≡ None }
    ensures five_floors_overflow { top_refusal 5 (counts (2 ^ 26) 0 0) ≡ Some EOVERFLOW }
    // a name that is there already
    ensures first_floor_taken { concat_refusal_over (tower_world 1) (floor_name 1)
        (provider_at (tower_world 1).topology 1) ≡ Some EEXIST }
{}

/// The measure falls along each run; results, sectors and contents are those of the log.
pub fn worked_laws()
    ensures first_falls { measure_falls 400 first_plan first_facts ≡ true }
    ensures exclusion_falls { measure_falls 400 exclusion_plan exclusion_facts ≡ true }
    ensures boundaries_falls { measure_falls 400 boundaries_plan boundaries_facts ≡ true }
    ensures slice_falls { measure_falls 400 slice_plan slice_facts ≡ true }
    ensures hostile_table_falls { measure_falls 400 hostile_table_plan hostile_table_facts ≡ true }
    ensures spoiling_falls { measure_falls 400 spoiling_plan spoiling_facts ≡ true }
    ensures pulling_falls { measure_falls 400 pulling_plan pulling_facts ≡ true }
    ensures joining_falls { measure_falls 400 joining_plan joining_facts ≡ true }
    ensures striping_falls { measure_falls 400 striping_plan striping_facts ≡ true }
    ensures diamond_falls { measure_falls 400 diamond_plan diamond_facts ≡ true }
    ensures failing_nop_falls { measure_falls 400 failing_nop_plan failing_nop_facts ≡ true }
    ensures assembling_falls { measure_falls 400 assembling_plan assembling_facts ≡ true }
    ensures labelling_falls { measure_falls 400 labelling_plan labelling_facts ≡ true }
    ensures two_users_falls { measure_falls 400 two_users_plan two_users_facts ≡ true }
    ensures joining_results { replies_by_log joining_plan joining_facts ≡ replies_given joining_plan joining_facts }
    ensures striping_results { replies_by_log striping_plan striping_facts
        ≡ replies_given striping_plan striping_facts }
    ensures failing_nop_results { replies_by_log failing_nop_plan failing_nop_facts
        ≡ replies_given failing_nop_plan failing_nop_facts }
    ensures pulling_results { replies_by_log pulling_plan pulling_facts ≡ replies_given pulling_plan pulling_facts }
    ensures joining_sectors { all_gone joining_plan joining_facts ≡ all_due joining_plan joining_facts }
    ensures striping_sectors { all_gone striping_plan striping_facts ≡ all_due striping_plan striping_facts }
    ensures diamond_sectors { all_gone diamond_plan diamond_facts ≡ all_due diamond_plan diamond_facts }
    ensures joining_held { same_sectors (held_by_log joining_plan joining_facts 1)
        (held_by_run joining_plan joining_facts 1) ≡ true }
    ensures striping_held { same_sectors (held_by_log striping_plan striping_facts 1)
        (held_by_run striping_plan striping_facts 1) ≡ true }
{}

/// Each moment of the runs is sound, each step frees only what is idle, each request is answered once.
pub fn worked_moments()
    ensures first_sound { run_is_sound first_plan first_facts ≡ true }
    ensures exclusion_sound { run_is_sound exclusion_plan exclusion_facts ≡ true }
    ensures boundaries_sound { run_is_sound boundaries_plan boundaries_facts ≡ true }
    ensures slice_sound { run_is_sound slice_plan slice_facts ≡ true }
    ensures hostile_table_sound { run_is_sound hostile_table_plan hostile_table_facts ≡ true }
    ensures spoiling_sound { run_is_sound spoiling_plan spoiling_facts ≡ true }
    ensures pulling_sound { run_is_sound pulling_plan pulling_facts ≡ true }
    ensures joining_sound { run_is_sound joining_plan joining_facts ≡ true }
    ensures striping_sound { run_is_sound striping_plan striping_facts ≡ true }
    ensures diamond_sound { run_is_sound diamond_plan diamond_facts ≡ true }
    ensures failing_nop_sound { run_is_sound failing_nop_plan failing_nop_facts ≡ true }
    ensures assembling_sound { run_is_sound assembling_plan assembling_facts ≡ true }
    ensures labelling_sound { run_is_sound labelling_plan labelling_facts ≡ true }
    ensures two_users_sound { run_is_sound two_users_plan two_users_facts ≡ true }
    ensures pulled_early_sound { sound_along sliced_world
        (made sliced_world (by_seat_0 (pulled_early sliced_world))) ≡ true }
    ensures pulled_late_sound { sound_along sliced_world (made sliced_world (by_seat_0 (pulled_late sliced_world)))
        ≡ true }
    ensures read_in_reverse_sound { sound_along striped_world
        (made striped_world (by_seat_0 (read_in_reverse striped_world))) ≡ true }
    ensures pulling_idle { run_frees_idle pulling_plan pulling_facts ≡ true }
    ensures pulling_once { run_answers_once pulling_plan pulling_facts ≡ true }
    ensures assembling_idle { run_frees_idle assembling_plan assembling_facts ≡ true }
    ensures assembling_once { run_answers_once assembling_plan assembling_facts ≡ true }
    ensures two_users_idle { run_frees_idle two_users_plan two_users_facts ≡ true }
    ensures two_users_once { run_answers_once two_users_plan two_users_facts ≡ true }
    ensures spoiling_idle { run_frees_idle spoiling_plan spoiling_facts ≡ true }
    ensures spoiling_once { run_answers_once spoiling_plan spoiling_facts ≡ true }
    ensures joining_idle { run_frees_idle joining_plan joining_facts ≡ true }
    ensures joining_once { run_answers_once joining_plan joining_facts ≡ true }
    // a world whose next number isn't above the numbers in use isn't sound
    ensures reused_number_unsound { let w : World = opening first_plan first_facts in
        is_sound (record w { topology = record w.topology { next_geom = 2 } }) ≡ false }
{}

/// Attaching, pieces and records.
pub fn worked_parts()
    // a chain of 32 geoms is as deep as may be
    ensures chain_rank { rank (chain 32) 34 ≡ 32 }
    ensures attach_own { loose_refusal (chain 1) 2 ≡ Some ELOOP }
    ensures attach_errored { loose_refusal (set_error (chain 1) 1) 1 ≡ Some ENXIO }
    ensures attach_deep { loose_refusal (chain 32) 32 ≡ Some EDEEP }
    ensures attach_fits { loose_refusal (chain 31) 31 ≡ None }
    // seven sectors over three components
    ensures three_way_pieces { pieces three_way three_way_provider 0 3584 ≡ piece 0 0 512 0 ∷ piece 1 0 512 512
        ∷ piece 2 0 512 1024 ∷ piece 0 512 512 1536 ∷ piece 1 512 512 2048 ∷ piece 2 512 512 2560
        ∷ piece 0 1024 512 3072 ∷ [] }
    ensures three_way_place { place three_way (codes "stripe/s") 2600 ≡ Some (spot 2 552) }
    // what is written is read again
    ensures label_again { label_record (label_sector 512 (record { name = codes "vol"; size = None }))
        ≡ Ok (record { name = codes "vol"; size = None }) }
    ensures concat_again { concat_record
        (concat_sector 512 (record { name = codes "v"; id = 7; place = 1; count = 2 }))
        ≡ Ok (record { name = codes "v"; id = 7; place = 1; count = 2 }) }
    ensures stripe_again { stripe_record
        (stripe_sector 4096 (record {
          name = codes "fast";
          id = 4294967295;
          place = 15;
          count = 16;
          stripe = 4096;
        })) ≡ Ok (record { name = codes "fast"; id = 4294967295; place = 15; count = 16; stripe = 4096 }) }
    // each cause of a decline
    ensures place_declined { concat_record
        (concat_sector 512 (record { name = codes "v"; id = 7; place = 2; count = 2 })) ≡ Err declines.Place }
    ensures size_declined { stripe_record
        (stripe_sector 512 (record { name = codes "v"; id = 7; place = 0; count = 1; stripe = 513 }))
        ≡ Err declines.Size }
    ensures name_declined { label_record
        (label_sector 512 (record { name = codes "a" ++ 0 ∷ codes "b"; size = None })) ≡ Err declines.BadName }
    ensures magic_declined { label_record (replicate 512 0) ≡ Err declines.Magic }
    ensures far_declined { mbr_table (one_entry 165 (replicate 8 255)) 64 ≡ Err declines.Nothing }
    ensures protective_declined { mbr_table (one_entry 238 (1 ∷ 0 ∷ 0 ∷ 0 ∷ 1 ∷ 0 ∷ 0 ∷ 0 ∷ [])) 64
        ≡ Err declines.Protective }
    ensures signature_declined { mbr_table (replicate 512 0) 64 ≡ Err declines.Signature }
    // a concat over a geom of the greatest rank is too deep
    ensures concat_deep { concat_refusal (chain 32) (codes "c32") 32 ≡ Some EDEEP }
    ensures concat_fits { concat_refusal (chain 31) (codes "c31") 31 ≡ None }
    // a slice whose name has 63 bytes is made, one of 64 isn't
    ensures slice_named { makes_slice 61 ≡ true }
    ensures slice_too_long { makes_slice 62 ≡ false }
{}

/// Each moment of the runs is steady, and each step offers for taste only what lives.
pub fn worked_steadiness()
    ensures first_steady { run_is_steady first_plan first_facts ≡ true }
    ensures exclusion_steady { run_is_steady exclusion_plan exclusion_facts ≡ true }
    ensures boundaries_steady { run_is_steady boundaries_plan boundaries_facts ≡ true }
    ensures slice_steady { run_is_steady slice_plan slice_facts ≡ true }
    ensures hostile_table_steady { run_is_steady hostile_table_plan hostile_table_facts ≡ true }
    ensures spoiling_steady { run_is_steady spoiling_plan spoiling_facts ≡ true }
    ensures pulling_steady { run_is_steady pulling_plan pulling_facts ≡ true }
    ensures joining_steady { run_is_steady joining_plan joining_facts ≡ true }
    ensures striping_steady { run_is_steady striping_plan striping_facts ≡ true }
    ensures diamond_steady { run_is_steady diamond_plan diamond_facts ≡ true }
    ensures failing_nop_steady { run_is_steady failing_nop_plan failing_nop_facts ≡ true }
    ensures assembling_steady { run_is_steady assembling_plan assembling_facts ≡ true }
    ensures labelling_steady { run_is_steady labelling_plan labelling_facts ≡ true }
    ensures two_users_steady { run_is_steady two_users_plan two_users_facts ≡ true }
    ensures pulled_early_steady { steady_along sliced_world
        (made sliced_world (by_seat_0 (pulled_early sliced_world))) ≡ true }
    ensures pulled_late_steady { steady_along sliced_world
        (made sliced_world (by_seat_0 (pulled_late sliced_world))) ≡ true }
    ensures read_in_reverse_steady { steady_along striped_world
        (made striped_world (by_seat_0 (read_in_reverse striped_world))) ≡ true }
{}

/// Words that are accepted, and words that aren't.
#[tactic(auto, using(crate::proofs::WordFacts::worked_words), unfolding(crate::proofs::Computed::computed))]
pub fn worked_words()
    ensures accepted { Accepts (gen_words (codes "1") (codes "3")) (GenMode 1 3) }
    ensures sweep { Accepts (codes "sweep" ∷ []) SweepMode }
    ensures watch { Accepts (codes "watch" ∷ []) WatchMode }
    ensures trace { Accepts (codes "trace" ∷ []) TraceMode }
    ensures verify { Accepts (codes "verify" ∷ []) VerifyMode }
    ensures no_word { AskNothing [] }
    ensures two_words { AskNothing (codes "step" ∷ codes "step" ∷ []) }
    ensures dash { AskNothing (codes "--help" ∷ []) }
    ensures zero_in_front { AskNothing (gen_words (codes "01") (codes "3")) }
    ensures too_many { AskNothing (gen_words (codes "1") (codes "4001")) }
{}

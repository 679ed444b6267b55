//! Runs of the model in which a concat grows, labels of both versions are written and logical partitions are found.
#![tactic(auto, unfolding(crate::proofs::Computed::computed))]

ghost use Rattle.geo_base.specs.declared.errno.Errno.TheVariants.{EBUSY, EDEEP, EINVAL, ENXIO, EOVERFLOW};
ghost use Rattle.geo_model.specs.Script.{script};
ghost use Rattle.geo_model.specs.declared.step.Reply.TheVariants as replies;
ghost use Rattle.geo_model.specs.declared.step.Step.TheVariants as steps;
ghost use Rattle.geo_rows.specs.Rows.{report_of};
ghost use Rattle.geo_rows.specs.GrownRows.{growing_plan, growing_facts, growing_text, appearing_plan, appearing_facts, appearing_text, sized_label_plan, sized_label_facts, sized_label_text, plain_label_plan, plain_label_facts, plain_label_text, logical_plan, logical_facts, logical_text, looping_plan, looping_facts, looping_text, refusing_plan, refusing_facts, refusing_text, relabelling_plan, relabelling_facts, relabelling_text, written_through_plan, written_through_facts, written_through_text, used_slice_plan, used_slice_facts, used_slice_text, kept_above_plan, kept_above_facts, kept_above_text, long_chain_plan, long_chain_facts, long_chain_text, too_long_chain_plan, too_long_chain_facts, too_long_chain_text};
ghost use Rattle.geo_rows.specs.GrownScripts.{growing_script, appearing_script, sized_label_script, plain_label_script, logical_script, looping_script, refusing_script, relabelling_script, written_through_script, used_slice_script, kept_above_script};
ghost use Rattle.geo_rows.specs.GrownSteps.{append_after_up, append_before_up, around_world, counted_world, held_mesh, held_world, mesh_after, new_world, pulled_world, refusal_over, size_after, two_disks};
ghost use Rattle.geo_rows.specs.StepLists.{fill_of, go_step as next_of, log_of_steps, reply_after};
ghost use Rattle.geo_rows.specs.WorkedIdle.{run_answers_once, run_frees_idle};
ghost use Rattle.geo_rows.specs.WorkedLaws.{all_due, all_gone, held_by_log, held_by_run, measure_falls, replies_by_log, replies_given, same_sectors};
ghost use Rattle.geo_rows.specs.WorkedParts.{chain};
ghost use Rattle.geo_rows.specs.WorkedSound.{run_is_sound, sound_along};
ghost use Rattle.geo_rows.specs.WorkedSteady.{run_is_steady, steady_along};
ghost use Rattle.std.specs.Prelude.{None, Ok, Some, [], codes, true, ◌-◌, ◌^◌, ◌∷◌, ◌≡◌};

/// Each plan, run in the fixed order over memory disks of zeros, gives its report.
pub fn grown_runs()
    ensures growing_report { report_of 400 growing_plan growing_facts ≡ growing_text }
    ensures appearing_report { report_of 400 appearing_plan appearing_facts ≡ appearing_text }
    ensures sized_label_report { report_of 400 sized_label_plan sized_label_facts ≡ sized_label_text }
    ensures plain_label_report { report_of 400 plain_label_plan plain_label_facts ≡ plain_label_text }
    ensures logical_report { report_of 400 logical_plan logical_facts ≡ logical_text }
    ensures looping_report { report_of 400 looping_plan looping_facts ≡ looping_text }
    ensures refusing_report { report_of 400 refusing_plan refusing_facts ≡ refusing_text }
    ensures relabelling_report { report_of 400 relabelling_plan relabelling_facts ≡ relabelling_text }
    ensures too_long_chain_report { report_of 400 too_long_chain_plan too_long_chain_facts ≡ too_long_chain_text }
    ensures long_chain_report { report_of 400 long_chain_plan long_chain_facts ≡ long_chain_text }
    ensures kept_above_report { report_of 400 kept_above_plan kept_above_facts ≡ kept_above_text }
    ensures used_slice_report { report_of 400 used_slice_plan used_slice_facts ≡ used_slice_text }
    ensures written_through_report { report_of 400 written_through_plan written_through_facts ≡ written_through_text }
{}

/// Each text is the script of its plan.
pub fn grown_scripts()
    ensures growing_script { script growing_script ≡ Ok growing_plan }
    ensures appearing_script { script appearing_script ≡ Ok appearing_plan }
    ensures sized_label_script { script sized_label_script ≡ Ok sized_label_plan }
    ensures plain_label_script { script plain_label_script ≡ Ok plain_label_plan }
    ensures logical_script { script logical_script ≡ Ok logical_plan }
    ensures looping_script { script looping_script ≡ Ok looping_plan }
    ensures refusing_script { script refusing_script ≡ Ok refusing_plan }
    ensures relabelling_script { script relabelling_script ≡ Ok relabelling_plan }
    ensures kept_above_script { script kept_above_script ≡ Ok kept_above_plan }
    ensures used_slice_script { script used_slice_script ≡ Ok used_slice_plan }
    ensures written_through_script { script written_through_script ≡ Ok written_through_plan }
{}

/// Appends while requests and tastes are under way, and appends that are refused.
pub fn grown_step_lists()
    // a read of the concat is accepted
    ensures append_once_accepted { reply_after held_world (next_of 0 ∷ next_of 1 ∷ []) 8
        ≡ Some (replies.Refused EBUSY) }
    // it is back from its disk
    ensures append_before_up { reply_after held_world (append_before_up held_world) 8 ≡ Some (replies.Refused EBUSY) }
    // and it is answered
    ensures read_over_append { reply_after held_world (append_before_up held_world) 7
        ≡ Some (replies.Bytes (fill_of 0)) }
    // it was answered
    ensures append_after_up { reply_after held_world (append_after_up held_world) 8 ≡ Some replies.Ok }
    ensures size_before_up { size_after held_world (append_before_up held_world) (codes "concat/c") ≡ Some 4096 }
    ensures size_after_up { size_after held_world (append_after_up held_world) (codes "concat/c") ≡ Some 6144 }
    // the mesh is as before
    ensures held_mesh { mesh_after held_world (next_of 0 ∷ next_of 1 ∷ []) two_disks ≡ held_mesh }
    // a read of what stands on the concat is accepted
    ensures append_under_nop { let w = around_world (codes "concat/c.nop") in
        reply_after w (next_of 0 ∷ next_of 1 ∷ []) 8 ≡ Some (replies.Refused EBUSY) }
    // a read of what the concat stands on is accepted
    ensures append_over_read { let w = around_world (codes "md0") in reply_after w (next_of 0 ∷ next_of 1 ∷ []) 8
        ≡ Some replies.Ok }
    // the concat is offered for taste
    ensures append_before_taste { reply_after new_world (next_of 0 ∷ next_of 1 ∷ []) 8 ≡ Some replies.Ok }
    // its taste is under way
    ensures append_in_taste { reply_after new_world (next_of 0 ∷ steps.Event ∷ next_of 1 ∷ []) 8
        ≡ Some (replies.Refused EBUSY) }
    // and has a read out
    ensures append_in_read { reply_after new_world (next_of 0 ∷ steps.Event ∷ steps.Judge ∷ next_of 1 ∷ []) 8
        ≡ Some (replies.Refused EBUSY) }
    // the provider is orphaned
    ensures append_pulled { let w = pulled_world (codes "md1") in reply_after w (next_of 0 ∷ next_of 1 ∷ []) 8
        ≡ Some (replies.Refused ENXIO) }
    // the one below it is
    ensures append_over_pulled { let w = pulled_world (codes "md1.nop") in
        reply_after w (next_of 0 ∷ next_of 1 ∷ []) 8 ≡ Some (replies.Refused ENXIO) }
    // the counts together would be above the limit
    ensures append_overflow { reply_after (counted_world 2147483647) (next_of 1 ∷ []) 8
        ≡ Some (replies.Refused EOVERFLOW) }
    // they are at the limit
    ensures append_counted { reply_after (counted_world 2147483646) (next_of 1 ∷ []) 8 ≡ Some replies.Ok }
    // a component of the greatest rank is too deep
    ensures append_deep { refusal_over (chain 32) 32 (λ p. p) ≡ Some EDEEP }
    // one of the rank below isn't
    ensures append_fits { refusal_over (chain 31) 31 (λ p. p) ≡ None }
    // the concat would be above the greatest size
    ensures append_too_large { refusal_over (chain 1) 1 (λ p. record p { size = 2 ^ 60 - 1536 }) ≡ Some EINVAL }
    // it is of the greatest size
    ensures append_largest { refusal_over (chain 1) 1 (λ p. record p { size = 2 ^ 60 - 2048 }) ≡ None }
{}

/// Each moment of these runs is sound, each step frees only what is idle, each request is answered once.
pub fn grown_moments()
    ensures growing_sound { run_is_sound growing_plan growing_facts ≡ true }
    ensures appearing_sound { run_is_sound appearing_plan appearing_facts ≡ true }
    ensures sized_label_sound { run_is_sound sized_label_plan sized_label_facts ≡ true }
    ensures plain_label_sound { run_is_sound plain_label_plan plain_label_facts ≡ true }
    ensures logical_sound { run_is_sound logical_plan logical_facts ≡ true }
    ensures looping_sound { run_is_sound looping_plan looping_facts ≡ true }
    ensures refusing_sound { run_is_sound refusing_plan refusing_facts ≡ true }
    ensures relabelling_sound { run_is_sound relabelling_plan relabelling_facts ≡ true }
    ensures too_long_chain_sound { run_is_sound too_long_chain_plan too_long_chain_facts ≡ true }
    ensures long_chain_sound { run_is_sound long_chain_plan long_chain_facts ≡ true }
    ensures kept_above_sound { run_is_sound kept_above_plan kept_above_facts ≡ true }
    ensures used_slice_sound { run_is_sound used_slice_plan used_slice_facts ≡ true }
    ensures written_through_sound { run_is_sound written_through_plan written_through_facts ≡ true }
    ensures append_before_up_sound { sound_along held_world (log_of_steps held_world (append_before_up held_world))
        ≡ true }
    ensures append_after_up_sound { sound_along held_world (log_of_steps held_world (append_after_up held_world))
        ≡ true }
    ensures append_in_read_sound { sound_along new_world
        (log_of_steps new_world (next_of 0 ∷ steps.Event ∷ steps.Judge ∷ next_of 1 ∷ [])) ≡ true }
    ensures growing_idle { run_frees_idle growing_plan growing_facts ≡ true }
    ensures appearing_idle { run_frees_idle appearing_plan appearing_facts ≡ true }
    ensures sized_label_idle { run_frees_idle sized_label_plan sized_label_facts ≡ true }
    ensures plain_label_idle { run_frees_idle plain_label_plan plain_label_facts ≡ true }
    ensures logical_idle { run_frees_idle logical_plan logical_facts ≡ true }
    ensures looping_idle { run_frees_idle looping_plan looping_facts ≡ true }
    ensures refusing_idle { run_frees_idle refusing_plan refusing_facts ≡ true }
    ensures relabelling_idle { run_frees_idle relabelling_plan relabelling_facts ≡ true }
    ensures too_long_chain_idle { run_frees_idle too_long_chain_plan too_long_chain_facts ≡ true }
    ensures long_chain_idle { run_frees_idle long_chain_plan long_chain_facts ≡ true }
    ensures kept_above_idle { run_frees_idle kept_above_plan kept_above_facts ≡ true }
    ensures used_slice_idle { run_frees_idle used_slice_plan used_slice_facts ≡ true }
    ensures written_through_idle { run_frees_idle written_through_plan written_through_facts ≡ true }
    ensures growing_once { run_answers_once growing_plan growing_facts ≡ true }
    ensures appearing_once { run_answers_once appearing_plan appearing_facts ≡ true }
    ensures sized_label_once { run_answers_once sized_label_plan sized_label_facts ≡ true }
    ensures plain_label_once { run_answers_once plain_label_plan plain_label_facts ≡ true }
    ensures logical_once { run_answers_once logical_plan logical_facts ≡ true }
    ensures looping_once { run_answers_once looping_plan looping_facts ≡ true }
    ensures refusing_once { run_answers_once refusing_plan refusing_facts ≡ true }
    ensures relabelling_once { run_answers_once relabelling_plan relabelling_facts ≡ true }
    ensures too_long_chain_once { run_answers_once too_long_chain_plan too_long_chain_facts ≡ true }
    ensures long_chain_once { run_answers_once long_chain_plan long_chain_facts ≡ true }
    ensures kept_above_once { run_answers_once kept_above_plan kept_above_facts ≡ true }
    ensures used_slice_once { run_answers_once used_slice_plan used_slice_facts ≡ true }
    ensures written_through_once { run_answers_once written_through_plan written_through_facts ≡ true }
{}

/// Each moment of these runs is steady, and each step offers for taste only what lives.
pub fn grown_steadiness()
    ensures growing_steady { run_is_steady growing_plan growing_facts ≡ true }
    ensures appearing_steady { run_is_steady appearing_plan appearing_facts ≡ true }
    ensures sized_label_steady { run_is_steady sized_label_plan sized_label_facts ≡ true }
    ensures plain_label_steady { run_is_steady plain_label_plan plain_label_facts ≡ true }
    ensures logical_steady { run_is_steady logical_plan logical_facts ≡ true }
    ensures looping_steady { run_is_steady looping_plan looping_facts ≡ true }
    ensures refusing_steady { run_is_steady refusing_plan refusing_facts ≡ true }
    ensures relabelling_steady { run_is_steady relabelling_plan relabelling_facts ≡ true }
    ensures too_long_chain_steady { run_is_steady too_long_chain_plan too_long_chain_facts ≡ true }
    ensures long_chain_steady { run_is_steady long_chain_plan long_chain_facts ≡ true }
    ensures kept_above_steady { run_is_steady kept_above_plan kept_above_facts ≡ true }
    ensures used_slice_steady { run_is_steady used_slice_plan used_slice_facts ≡ true }
    ensures written_through_steady { run_is_steady written_through_plan written_through_facts ≡ true }
    ensures append_before_up_steady { steady_along held_world (log_of_steps held_world (append_before_up held_world))
        ≡ true }
    ensures append_after_up_steady { steady_along held_world (log_of_steps held_world (append_after_up held_world))
        ≡ true }
    ensures append_in_read_steady { steady_along new_world
        (log_of_steps new_world (next_of 0 ∷ steps.Event ∷ steps.Judge ∷ next_of 1 ∷ [])) ≡ true }
{}

/// The measure falls along each of these runs; results, sectors and contents are those of the log.
pub fn grown_laws()
    ensures growing_falls { measure_falls 400 growing_plan growing_facts ≡ true }
    ensures appearing_falls { measure_falls 400 appearing_plan appearing_facts ≡ true }
    ensures sized_label_falls { measure_falls 400 sized_label_plan sized_label_facts ≡ true }
    ensures plain_label_falls { measure_falls 400 plain_label_plan plain_label_facts ≡ true }
    ensures logical_falls { measure_falls 400 logical_plan logical_facts ≡ true }
    ensures looping_falls { measure_falls 400 looping_plan looping_facts ≡ true }
    ensures refusing_falls { measure_falls 400 refusing_plan refusing_facts ≡ true }
    ensures relabelling_falls { measure_falls 400 relabelling_plan relabelling_facts ≡ true }
    ensures too_long_chain_falls { measure_falls 400 too_long_chain_plan too_long_chain_facts ≡ true }
    ensures long_chain_falls { measure_falls 400 long_chain_plan long_chain_facts ≡ true }
    ensures kept_above_falls { measure_falls 400 kept_above_plan kept_above_facts ≡ true }
    ensures used_slice_falls { measure_falls 400 used_slice_plan used_slice_facts ≡ true }
    ensures written_through_falls { measure_falls 400 written_through_plan written_through_facts ≡ true }
    ensures growing_results { replies_by_log growing_plan growing_facts ≡ replies_given growing_plan growing_facts }
    ensures logical_results { replies_by_log logical_plan logical_facts ≡ replies_given logical_plan logical_facts }
    ensures growing_sectors { all_gone growing_plan growing_facts ≡ all_due growing_plan growing_facts }
    ensures written_through_sectors { all_gone written_through_plan written_through_facts
        ≡ all_due written_through_plan written_through_facts }
    ensures appearing_sectors { all_gone appearing_plan appearing_facts ≡ all_due appearing_plan appearing_facts }
    ensures logical_sectors { all_gone logical_plan logical_facts ≡ all_due logical_plan logical_facts }
    ensures growing_held { same_sectors (held_by_log growing_plan growing_facts 2)
        (held_by_run growing_plan growing_facts 2) ≡ true }
    ensures written_through_held { same_sectors (held_by_log written_through_plan written_through_facts 1)
        (held_by_run written_through_plan written_through_facts 1) ≡ true }
{}

//! Sizes, sectors, places and commands fit at each moment of the worked runs.
#![tactic(auto, unfolding(crate::proofs::Computed::computed))]

ghost use Rattle.geo_model.specs.declared.step.Step.TheVariants as steps;
ghost use Rattle.geo_rows.specs.Rows.{first_plan, first_facts, exclusion_plan, exclusion_facts, boundaries_plan, boundaries_facts, slice_plan, slice_facts, hostile_table_plan, hostile_table_facts, spoiling_plan, spoiling_facts, pulling_plan, pulling_facts, joining_plan, joining_facts, striping_plan, striping_facts, diamond_plan, diamond_facts, failing_nop_plan, failing_nop_facts, assembling_plan, assembling_facts, labelling_plan, labelling_facts, two_users_plan, two_users_facts};
ghost use Rattle.geo_rows.specs.GrownRows.{growing_plan, growing_facts, appearing_plan, appearing_facts, sized_label_plan, sized_label_facts, plain_label_plan, plain_label_facts, logical_plan, logical_facts, looping_plan, looping_facts, refusing_plan, refusing_facts, relabelling_plan, relabelling_facts, written_through_plan, written_through_facts, used_slice_plan, used_slice_facts, kept_above_plan, kept_above_facts, long_chain_plan, long_chain_facts, too_long_chain_plan, too_long_chain_facts};
ghost use Rattle.geo_rows.specs.GrownSteps.{append_after_up, append_before_up, held_world, new_world};
ghost use Rattle.geo_rows.specs.StepLists.{go_step as next_of, log_of_steps, pulled_early, pulled_late, read_in_reverse, sliced_world, striped_world};
ghost use Rattle.geo_rows.specs.LooseWorlds.{crooked_nop, empty_disk, far_sector, huge_sector, is_loose, is_unfit, large_component, large_concat, large_sectors, short_stripe, strange_command, two_providers, two_roots, tasted_twin, crooked_part, large_link, long_label};
ghost use Rattle.geo_rows.specs.WorkedFitting.{TestsFitting, fitting_along, run_is_fitting};
ghost use Rattle.geo_rows.specs.WorkedSound.{TestsSound};
ghost use Rattle.geo_rows.specs.WorkedSteady.{TestsSteady};
ghost use Rattle.std.specs.Prelude.{[], true, ◌∷◌, ◌≡◌};

/// What the worked runs are tested by is exactly what a fitting world is.
#[tactic(auto, using(crate::proofs::FittingTests::fitting_tested))]
pub fn fitting_is_tested()
    ensures { TestsFitting }
{}

/// And exactly what a steady world is.
#[tactic(auto, using(crate::proofs::SteadyTests::steady_tested))]
pub fn steadiness_is_tested()
    ensures { TestsSteady }
{}

/// A sound world passes its test; one that passes is sound where its offsets lead down.
#[tactic(auto, using(crate::proofs::SoundTests::sound_tested))]
pub fn soundness_is_tested()
    ensures { TestsSound }
{}

/// Each moment of the runs and of the step lists is fitting.
pub fn worked_fitting()
    ensures first_fitting { run_is_fitting first_plan first_facts ≡ true }
    ensures exclusion_fitting { run_is_fitting exclusion_plan exclusion_facts ≡ true }
    ensures boundaries_fitting { run_is_fitting boundaries_plan boundaries_facts ≡ true }
    ensures slice_fitting { run_is_fitting slice_plan slice_facts ≡ true }
    ensures hostile_table_fitting { run_is_fitting hostile_table_plan hostile_table_facts ≡ true }
    ensures spoiling_fitting { run_is_fitting spoiling_plan spoiling_facts ≡ true }
    ensures pulling_fitting { run_is_fitting pulling_plan pulling_facts ≡ true }
    ensures joining_fitting { run_is_fitting joining_plan joining_facts ≡ true }
    ensures striping_fitting { run_is_fitting striping_plan striping_facts ≡ true }
    ensures diamond_fitting { run_is_fitting diamond_plan diamond_facts ≡ true }
    ensures failing_nop_fitting { run_is_fitting failing_nop_plan failing_nop_facts ≡ true }
    ensures assembling_fitting { run_is_fitting assembling_plan assembling_facts ≡ true }
    ensures labelling_fitting { run_is_fitting labelling_plan labelling_facts ≡ true }
    ensures two_users_fitting { run_is_fitting two_users_plan two_users_facts ≡ true }
    ensures growing_fitting { run_is_fitting growing_plan growing_facts ≡ true }
    ensures appearing_fitting { run_is_fitting appearing_plan appearing_facts ≡ true }
    ensures sized_label_fitting { run_is_fitting sized_label_plan sized_label_facts ≡ true }
    ensures plain_label_fitting { run_is_fitting plain_label_plan plain_label_facts ≡ true }
    ensures logical_fitting { run_is_fitting logical_plan logical_facts ≡ true }
    ensures looping_fitting { run_is_fitting looping_plan looping_facts ≡ true }
    ensures refusing_fitting { run_is_fitting refusing_plan refusing_facts ≡ true }
    ensures relabelling_fitting { run_is_fitting relabelling_plan relabelling_facts ≡ true }
    ensures too_long_chain_fitting { run_is_fitting too_long_chain_plan too_long_chain_facts ≡ true }
    ensures long_chain_fitting { run_is_fitting long_chain_plan long_chain_facts ≡ true }
    ensures kept_above_fitting { run_is_fitting kept_above_plan kept_above_facts ≡ true }
    ensures used_slice_fitting { run_is_fitting used_slice_plan used_slice_facts ≡ true }
    ensures written_through_fitting { run_is_fitting written_through_plan written_through_facts ≡ true }
    ensures pulled_early_fitting { fitting_along sliced_world (log_of_steps sliced_world (pulled_early sliced_world))
        ≡ true }
    ensures pulled_late_fitting { fitting_along sliced_world (log_of_steps sliced_world (pulled_late sliced_world))
        ≡ true }
    ensures read_in_reverse_fitting { fitting_along striped_world
        (log_of_steps striped_world (read_in_reverse striped_world)) ≡ true }
    ensures append_before_up_fitting { fitting_along held_world (log_of_steps held_world (append_before_up held_world))
        ≡ true }
    ensures append_after_up_fitting { fitting_along held_world (log_of_steps held_world (append_after_up held_world))
        ≡ true }
    ensures append_in_read_fitting { fitting_along new_world
        (log_of_steps new_world (next_of 0 ∷ steps.Event ∷ steps.Judge ∷ next_of 1 ∷ [])) ≡ true }
{}

/// Worlds that are sound and steady, aren't fitting, and aren't sound any more after the step; and a stripe whose
/// provider has another size than its components make it.
pub fn unfitting_worlds()
    ensures crooked_nop_loose { is_loose crooked_nop (steps.Start 1) ≡ true }
    ensures large_component_loose { is_loose large_component steps.Judge ≡ true }
    ensures large_sectors_loose { is_loose large_sectors steps.Judge ≡ true }
    ensures far_sector_loose { is_loose far_sector steps.Judge ≡ true }
    ensures empty_disk_loose { is_loose empty_disk (steps.Go 0) ≡ true }
    ensures strange_command_loose { is_loose strange_command (steps.Go 0) ≡ true }
    ensures two_roots_loose { is_loose two_roots (steps.Up 1) ≡ true }
    ensures huge_sector_loose { is_loose huge_sector steps.Judge ≡ true }
    ensures two_providers_loose { is_loose two_providers (steps.Go 0) ≡ true }
    ensures large_concat_loose { is_loose large_concat (steps.Go 0) ≡ true }
    ensures long_label_loose { is_loose long_label (steps.Go 0) ≡ true }
    ensures large_link_loose { is_loose large_link steps.Judge ≡ true }
    ensures crooked_part_loose { is_loose crooked_part (steps.Start 1) ≡ true }
    ensures tasted_twin_loose { is_loose tasted_twin (steps.Go 0) ≡ true }
    ensures short_stripe_unfit { is_unfit short_stripe ≡ true }
{}

//! Chains of logical partitions, labels of both versions, and the numbers of a taste.
#![tactic(auto, unfolding(crate::proofs::Computed::computed))]

ghost use Rattle.geo_base.specs.declared.decline.DeclineCause.TheVariants as declines;
ghost use Rattle.geo_base.specs.declared.kind.Kind.TheVariants as kinds;
ghost use Rattle.geo_model.specs.declared.class.Shape.TheVariants.{Named};
ghost use Rattle.geo_model.specs.declared.class.Verdict.TheVariants.{Accept, Decline};
ghost use Rattle.geo_model.specs.Acceptance.{taste_where};
ghost use Rattle.geo_model.specs.Chain.{chain_table};
ghost use Rattle.geo_model.specs.Names.{logical_name};
ghost use Rattle.geo_model.specs.Order.{judges_of_taste, makes_of_taste, taste_cost};
ghost use Rattle.geo_model.specs.Place.{end_number, place};
ghost use Rattle.geo_model.specs.Records.{concat_magic, concat_record, label_record, label_sector, padded};
ghost use Rattle.geo_rows.specs.WorkedChains.{bare_link, ebr_in_row, eight_sectors, label_of_version, link, links_in_row, media_of, part, parts_in_row, said_of_label, table, two_links};
ghost use Rattle.geo_rows.specs.WorkedParts.{spot};
ghost use Rattle.geo_model.specs.World.{NextSector};
ghost use Rattle.geo_rows.specs.ChainWorlds.{back_after, chain_of, chain_world, first_elsewhere, full_chain, goes_back, holds_all, judged_unsound, last_back, lawful_chain, next_far, other_next, read_link, same_sectors_read};
ghost use Rattle.geo_rows.specs.WorkedSound.{is_sound};
ghost use Rattle.std.specs.Int.{to_le_bytes, w32};
ghost use Rattle.std.specs.Prelude.{Err, None, Ok, Some, [], codes, false, nat_lt, true, ◌*◌, ◌+◌, ◌++◌, ◌∷◌, ◌≡◌};

/// Chains that are found, and each cause to decline one; names, numbers and places of partitions.
pub fn worked_chains()
    ensures two_links_found { chain_table (two_links 0 0) 63 ≡ Ok (table (part 1 4 ∷ part 11 3 ∷ []) 30) }
    ensures row_found { chain_table (links_in_row 32) 63 ≡ Ok (table parts_in_row 0) }
    ensures first_without_part { chain_table (media_of ((0, link 0 0 0 5 10) ∷ (10, link 165 1 3 0 0) ∷ [])) 63
        ≡ Ok (table (None ∷ part 11 3 ∷ []) 30) }
    ensures signature_declined { chain_table (media_of []) 63 ≡ Err declines.Signature }
    ensures second_declined { chain_table (two_links 131 20) 63 ≡ Err declines.Second }
    ensures loop_to_first_declined { chain_table (two_links 5 0) 63 ≡ Err declines.Loop }
    ensures loop_to_itself_declined { chain_table (two_links 15 10) 63 ≡ Err declines.Loop }
    ensures far_declined { chain_table (two_links 5 63) 63 ≡ Err declines.Far }
    ensures last_sector_read { chain_table (two_links 5 62) 63 ≡ Err declines.Signature }
    ensures long_declined { chain_table (links_in_row 33) 63 ≡ Err declines.Long }
    ensures nothing_declined { chain_table (media_of ((0, bare_link) ∷ [])) 63 ≡ Err declines.Nothing }
    ensures part_past_media { chain_table (media_of ((0, link 165 1 63 0 0) ∷ [])) 63 ≡ Err declines.Nothing }
    ensures part_to_end { chain_table (media_of ((0, link 165 1 62 0 0) ∷ [])) 63 ≡ Ok (table (part 1 62 ∷ []) 31) }
    ensures asked_on_slice { taste_where kinds.Ebr (record eight_sectors { kind = kinds.Mbr }) ≡ Some 0 }
    ensures not_asked_on_disk { taste_where kinds.Ebr eight_sectors ≡ None }
    ensures not_asked_on_large_sectors { taste_where kinds.Ebr (record eight_sectors {
      kind = kinds.Mbr;
      sector = 4096;
    }) ≡ None }
    ensures twelfth_name { logical_name (codes "md0s1") 11 ≡ codes "md0s1l12" }
    ensures twelfth_number { end_number (codes "l12") ≡ 12 }
    ensures second_number { end_number (codes "md0s1l2") ≡ 2 }
    ensures twelfth_place { place ebr_in_row (codes "md0s1l12") 100 ≡ Some (spot 0 (12 * 512 + 100)) }
    ensures second_place { place ebr_in_row (codes "md0s1l2") 100 ≡ Some (spot 0 (2 * 512 + 100)) }
    ensures no_place { place ebr_in_row (codes "md0s1l33") 0 ≡ None }
{}

/// What is read of labels, and what LABEL says to them.
pub fn worked_labels()
    ensures sized_again { label_record (label_sector 512 (record { name = codes "vol"; size = Some 3584 }))
        ≡ Ok (record { name = codes "vol"; size = Some 3584 }) }
    ensures plain_accepted { said_of_label None ≡ Accept (Named (record { name = codes "vol"; size = None })) }
    ensures sized_accepted { said_of_label (Some 4096)
        ≡ Accept (Named (record { name = codes "vol"; size = Some 4096 })) }
    ensures smaller_declined { said_of_label (Some 3584) ≡ Decline declines.Media }
    ensures larger_declined { said_of_label (Some 4608) ≡ Decline declines.Media }
    ensures version_0_declined { label_record (label_of_version 0) ≡ Err declines.Version }
    ensures version_3_declined { label_record (label_of_version 3) ≡ Err declines.Version }
    ensures version_2_zero_size { label_record (label_of_version 2)
        ≡ Ok (record { name = codes "vol"; size = Some 0 }) }
    ensures concat_version_2_declined { concat_record (padded 512 (concat_magic ++ to_le_bytes w32 2))
        ≡ Err declines.Version }
{}

/// The Judge steps that a taste can make, and the providers.
pub fn taste_numbers()
    ensures judges { judges_of_taste ≡ 331 }
    ensures makes { makes_of_taste ≡ 39 }
    ensures cost_above_judges { nat_lt judges_of_taste taste_cost ≡ true }
{}

/// The chain of a taste under way is sound as it should be, and unsound where it isn't in one respect.
pub fn chains_of_tastes()
    ensures lawful_holds { holds_all lawful_chain ≡ true }
    ensures lawful_kept { judged_unsound lawful_chain ≡ false }
    ensures empty_part_unsound { is_sound (back_after (read_link 0 1 0)) ≡ false }
    ensures empty_part_judged { judged_unsound (back_after (read_link 0 1 0)) ≡ true }
    ensures long_part_unsound { is_sound (back_after (read_link 0 1 63)) ≡ false }
    ensures long_part_judged { judged_unsound (back_after (read_link 0 1 63)) ≡ true }
    ensures late_first_unsound { is_sound (back_after (read_link 1 2 4)) ≡ false }
    ensures far_link_unsound { is_sound
        (chain_world last_back 3 (chain_of (read_link 0 1 4 ∷ read_link 63 1 4 ∷ []) 10)) ≡ false }
    ensures more_reads_unsound { is_sound (chain_world last_back 3 (chain_of (read_link 0 1 4 ∷ []) 10)) ≡ false }
    ensures full_chain_unsound { is_sound (chain_world last_back 33 full_chain) ≡ false }
    ensures same_sectors_unsound { is_sound same_sectors_read ≡ false }
    ensures goes_back_unsound { is_sound goes_back ≡ false }
    ensures other_next_unsound { is_sound other_next ≡ false }
    ensures first_elsewhere_unsound { is_sound first_elsewhere ≡ false }
    ensures first_elsewhere_judged { judged_unsound first_elsewhere ≡ true }
    ensures next_far_unsound { is_sound next_far ≡ false }
    ensures same_next_sound { is_sound
        (chain_world (NextSector kinds.Ebr 10) 1 (chain_of (read_link 0 1 4 ∷ []) 10)) ≡ true }
{}

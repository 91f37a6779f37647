//! What the definition of the command line says of written-out arguments.
ghost use Rattle.std.specs.Prelude.{[], codes, false, true};
ghost use Rattle.rds_cli.specs.CommandLine.{AskFor, AskForHelp, default_dwell};
ghost use Rattle.rds_cli.specs.Examples.{AreNotTaken, CallForHelp, auditing, auditing_padded};
ghost use Rattle.rds_cli.specs.Examples.{auditing_running, confirming, decoding};
ghost use Rattle.rds_cli.specs.Examples.{decoding_kept, decoding_why, encoding, filling, filling_one, from_file};
ghost use Rattle.rds_cli.specs.Examples.{listing_running};
ghost use Rattle.rds_cli.specs.Examples.{losing, simulating, simulating_flag_alone, simulating_kept};
ghost use Rattle.rds_cli.specs.Examples.{simulating_confirmed, tagged_in, typed};
ghost use Rattle.rds_cli.specs.Examples.{witnessing};

/// Shows the definition at work. The arguments of README's examples are taken and ask for these tasks. A dwell of 0
/// slots, a window of 1 or 256 slots, a programme type of 32, an option of another subcommand, a subcommand without a
/// programme, a second file and a missing subcommand are refused. Help and the version are answered. `help` followed by
/// a command is not taken, and the definition leaves open whether that gives help or is refused.
pub fn words_of_the_examples()
    ensures decode { AskFor (typed (codes "rdsrt decode --pi C201")) (decoding (codes "C201") default_dwell) }
    ensures decode_other { AskFor (typed (codes "rdsrt decode --pi F201")) (decoding (codes "F201") default_dwell) }
    ensures decode_dwell { AskFor (typed (codes "rdsrt decode --pi C201 --m 8")) (decoding (codes "C201") 8) }
    ensures decode_spelling { AskFor (typed (codes "rdsrt decode --m=+004 --pi=C201"))
        (decoding (codes "C201") 4) }
    ensures encode { AskFor (typed (codes "rdsrt encode --pi C201 --pty 10 --m 8")) (encoding 8 10) }
    ensures sim { AskFor (typed (codes "rdsrt sim --pi C201 --pty 24 --m 8")) (simulating 8 24 false 0) }
    ensures sim_tp { AskFor (typed (codes "rdsrt sim --pi C201 --pty 10 --tp")) (simulating default_dwell 10 true 0) }
    ensures audit { AskFor (typed (codes "rdsrt audit --pi C201 --m 4")) (auditing 4 0) }
    ensures audit_late { AskFor (typed (codes "rdsrt audit --pi C201 --m 4 --k 2")) (auditing 4 2) }
    ensures audit_running { AskFor (typed (codes "rdsrt audit --running --pi C201"))
        (auditing_running default_dwell) }
    ensures audit_padded { AskFor (typed (codes "rdsrt audit --padded --pi C201"))
        (auditing_padded default_dwell) }
    ensures audit_all { AskFor (typed (codes "rdsrt audit --running --all --pi C201"))
        (listing_running default_dwell) }
    ensures witness { AskFor (typed (codes "rdsrt witness --pi C201 --m 8")) (witnessing 8) }
    ensures witness_lose { AskFor (typed (codes "rdsrt witness --pi C201 --m 8 --lose 3-7,12"))
        (losing (codes "3-7,12") 8 false) }
    ensures witness_flag_alone { AskFor (typed (codes "rdsrt witness --pi C201 -m 8 --flag-alone --lose 2-3"))
        (losing (codes "2-3") 8 true) }
    ensures witness_without_spans { AskFor (typed (codes "rdsrt witness --pi C201 -m 8 --flag-alone"))
        (losing [] 8 true) }
    ensures decode_rtplus { AskFor (typed (codes "rdsrt decode --pi C201 --rtplus 12A"))
        (tagged_in 12 (decoding (codes "C201") default_dwell)) }
    ensures slots_rtplus { AreNotTaken (typed (codes "rdsrt slots --rtplus 12A")) }
    ensures decode_lose { AreNotTaken (typed (codes "rdsrt decode --pi C201 --lose 2-3")) }
    ensures slots { AskFor (typed (codes "rdsrt slots")) (filling default_dwell 20) }
    ensures slots_grain { AskFor (typed (codes "rdsrt slots --m 8 --grain 0")) (filling 8 0) }
    ensures slots_pi { AskFor (typed (codes "rdsrt slots --pi C201")) (filling_one (codes "C201") default_dwell 20) }
    ensures large_grain { AreNotTaken (typed (codes "rdsrt slots --grain 88")) }
    ensures sim_late { AskFor (typed (codes "rdsrt sim --pi C201 --k 1024")) (simulating default_dwell 0 false 1024) }
    ensures sim_of_eleven { AskFor (typed (codes "rdsrt sim --pi C201 --m 8 --k 2 --pty 24 --tp --"))
        (simulating 8 24 true 2) }
    ensures decode_short { AskFor (typed (codes "rdsrt decode --pi C201 -m 8")) (decoding (codes "C201") 8) }
    ensures sim_short { AskFor (typed (codes "rdsrt sim --pi C201 -k 2")) (simulating default_dwell 0 false 2) }
    ensures decode_quiet { AskFor (typed (codes "rdsrt decode --pi C201 --quiet"))
        (decoding (codes "C201") default_dwell) }
    ensures decode_json_notes { AskFor (typed (codes "rdsrt decode --pi C201 --json-notes"))
        (decoding (codes "C201") default_dwell) }
    ensures decode_confirm { AskFor (typed (codes "rdsrt decode --pi C201 -m 64 --confirm 65")) (confirming 64 65) }
    ensures decode_file { AskFor (typed (codes "rdsrt decode --pi C201 -m 8 station.log"))
        (from_file (codes "station.log") (decoding (codes "C201") 8)) }
    ensures decode_standard_input { AskFor (typed (codes "rdsrt decode --pi C201 -m 8 -"))
        (decoding (codes "C201") 8) }
    ensures slots_file { AskFor (typed (codes "rdsrt slots -- --m.log"))
        (from_file (codes "--m.log") (filling default_dwell 20)) }
    ensures two_files { AreNotTaken (typed (codes "rdsrt decode --pi C201 one.log two.log")) }
    ensures decode_why { AskFor (typed (codes "rdsrt decode --pi C201 --m 8 --why")) (decoding_why 8) }
    ensures decode_keep { AskFor (typed (codes "rdsrt decode --pi C201 --keep 685")) (decoding_kept 685) }
    ensures long_keep { AreNotTaken (typed (codes "rdsrt decode --pi C201 --keep 65536")) }
    ensures audit_keep { AreNotTaken (typed (codes "rdsrt audit --pi C201 --keep 685")) }
    ensures audit_why { AreNotTaken (typed (codes "rdsrt audit --pi C201 --why")) }
    ensures small_window { AreNotTaken (typed (codes "rdsrt decode --pi C201 --confirm 1")) }
    ensures large_window { AreNotTaken (typed (codes "rdsrt decode --pi C201 --confirm 256")) }
    ensures audit_confirm { AreNotTaken (typed (codes "rdsrt audit --pi C201 --confirm 65")) }
    ensures sim_flag_alone { AskFor (typed (codes "rdsrt sim --pi C201 --m 8 --flag-alone"))
        (simulating_flag_alone 8 false) }
    ensures sim_why { AskFor (typed (codes "rdsrt sim --pi C201 --m 8 --why --flag-alone"))
        (simulating_flag_alone 8 true) }
    ensures sim_confirm { AskFor (typed (codes "rdsrt sim --pi C201 -m 64 --confirm 65")) (simulating_confirmed 64 65) }
    ensures sim_keep { AskFor (typed (codes "rdsrt sim --pi C201 --keep 685")) (simulating_kept 685) }
    ensures sim_long_keep { AreNotTaken (typed (codes "rdsrt sim --pi C201 --keep 65536")) }
    ensures sim_quiet { AskFor (typed (codes "rdsrt sim --quiet --pi C201 --pty 10 --tp"))
        (simulating default_dwell 10 true 0) }
    ensures slots_json_notes { AskFor (typed (codes "rdsrt slots --json-notes --quiet")) (filling default_dwell 20) }
    ensures help { AskForHelp (typed (codes "rdsrt --help")) }
    ensures help_of_one { AskForHelp (typed (codes "rdsrt decode --help")) }
    ensures version { AskForHelp (typed (codes "rdsrt --version")) }
    ensures no_dwell { AreNotTaken (typed (codes "rdsrt decode --pi C201 --m 0")) }
    ensures no_programme { AreNotTaken (typed (codes "rdsrt decode")) }
    ensures no_subcommand { AreNotTaken (typed (codes "rdsrt")) }
    ensures too_late { AreNotTaken (typed (codes "rdsrt audit --pi C201 --k 1025")) }
    ensures help_word { CallForHelp (typed (codes "rdsrt help")) }
    ensures help_word_of_one { CallForHelp (typed (codes "rdsrt help decode")) }
    ensures help_word_of_none { CallForHelp (typed (codes "rdsrt help nonsense")) }
    ensures large_type { AreNotTaken (typed (codes "rdsrt encode --pi C201 --pty 32")) }
{}

ghost use Rattle.std.specs.Prelude.{◌≡◌, codes, negsuc, pos, [], ◌∷◌};
ghost use Rattle.std.specs.Fmt.{signed_decimal};
ghost use Rattle.vms_base.specs.Groups.{bytes_of_word, word_of_bytes};
ghost use Rattle.vms_format_trials.specs.Rows.{AreRight};
ghost use Rattle.vms_format_trials.specs.Encodings.{bit_rows, eight_numbers};

/// Digits, highest bits and packed words have these values. The first of eight numbers is the lowest byte of a word.
pub fn encodings_are_known()
    ensures zero { signed_decimal (pos 0) ≡ codes "0" }
    ensures negative { signed_decimal (negsuc 4) ≡ codes "-5" }
    ensures least { signed_decimal (negsuc 9223372036854775807) ≡ codes "-9223372036854775808" }
    ensures bits { AreRight bit_rows }
    ensures packed { word_of_bytes eight_numbers ≡ 18303476061473668865 }
    ensures unpacked { bytes_of_word 18303476061473668865 ≡ eight_numbers }
{}

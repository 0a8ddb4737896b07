ghost use Rattle.std.specs.Prelude.{◌≡◌, [], ◌∷◌, ◌++◌, codes, flat_map};
ghost use Rattle.vms_gen.specs.Common.{made_text};

/// The text of the numbers 1, 1 and 1 is this.
pub fn made_text_is_known()
    ensures { made_text 1 1 1 ≡ flat_map (λ line. line ++ 10 ∷ []) (codes "vmtrace 1"
        ∷ codes "cpus 1"
        ∷ codes "zone 0 Normal 262144 100 125 150"
        ∷ codes "base 0 Normal nr_free_pages 1000000"
        ∷ codes "counter files 32"
        ∷ codes "go"
        ∷ codes "c0 mod 0 Normal nr_zone_unevictable 19"
        ∷ codes "report totals" ∷ []) }
{}

//! Theorems about the definitions.
ghost use Rattle.std.specs.Prelude.{◌≡◌, [], codes, replicate};
ghost use Rattle.text_script.specs.Output.{text};

/// The outputs of some small scripts.
pub fn law_texts()
    ensures empty { text [] ≡ codes "! 1 first\n" }
    ensures comment { text (codes "#\n") ≡ codes "! 2 first\n" }
    ensures size { text (codes "board 9 1 0\ntake 0\n") ≡ codes "! 1 size\n" }
    ensures long { text (replicate 641 35) ≡ codes "! 1 long\n" }
    ensures replies { text (codes "board 1 1 0\ntake 1\nread 0 40000070\nwrite 0 40000072 150\nread 0 40000072\n")
        ≡ codes "= refused 14\n= general protection\n= done\n= value 50\n" }
    ensures form { text (codes "board 1 1 0\ntake 1\n# \n\ntake 01\ntake 1\n") ≡ codes "= refused 14\n! 5 form\n" }
    ensures sparse { text (codes "board 1 sparse 0\nload 0 1\nboard 1 1 0\n") ≡ codes "= refused 17\n! 3 form\n" }
    ensures sparse_size { text (codes "board 65 sparse 0\n") ≡ codes "! 1 size\n" }
    ensures no_pages { text (codes "board 2 0 0\n") ≡ codes "! 1 size\n" }
    ensures cut { text (codes "board 1 1 0\ntake 1\ntake 1") ≡ codes "= refused 14\n! 3 cut\n" }
{}

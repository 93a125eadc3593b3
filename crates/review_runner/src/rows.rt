//! Literal command lines with the orders that the definitions give for them.
#![tactic(auto, using(crate::proofs::Shape::words_on_literals), unfolding(crate::proofs::Shape::words_on_literals))]

ghost use Rattle.review_runner.specs.Rows.{all_documents, asm_words, compile_words, debug_all_words, debug_words, four_files, list_words, no_documents, review_all_words, review_words, two_files, without_review, without_steps, with_steps, AreWordsRefused, IsRead, IsTakenAs};
ghost use Rattle.review_runner.specs.Order.{assemble, compile, debug, list, review, run_image};
ghost use Rattle.std.specs.Prelude.{◌∷◌, [], codes, None, Some};

/// `celbpf run-image a.img --steps 5` runs `a.img` for at most 5 steps; without `--steps` the limit
/// is 10,000,000. The largest limit is 1,000,000,000.
pub fn run_image_rows_stand()
    ensures given { IsTakenAs (with_steps (codes "5")) (run_image (codes "a.img") 5) }
    ensures left_out { IsTakenAs without_steps (run_image (codes "a.img") 10000000) }
    ensures most { IsTakenAs (with_steps (codes "1000000000")) (run_image (codes "a.img") 1000000000) }
    ensures past_most { AreWordsRefused (with_steps (codes "1000000001")) }
{}

/// `celbpf debug a.img` debugs `a.img` on null roots; with `--review`, `--namespace` and `--params`
/// on the roots of these documents.
pub fn debug_rows_stand()
    ensures alone { IsTakenAs debug_words (debug (codes "a.img") no_documents) }
    ensures all { IsTakenAs debug_all_words (debug (codes "a.img") all_documents) }
{}

/// `celbpf asm a.txt a.img` assembles `a.txt` to `a.img`.
pub fn asm_row_stands()
    ensures { IsTakenAs asm_words (assemble (codes "a.txt") (codes "a.img")) }
{}

/// `celbpf compile p.json a.img` compiles `p.json` to `a.img`.
pub fn compile_row_stands()
    ensures { IsTakenAs compile_words (compile (codes "p.json") (codes "a.img")) }
{}

/// `celbpf review --policy p.json --review r.json` reviews `r.json` under `p.json`, for at most
/// 10,000,000 steps; `--namespace`, `--params` and `--steps` give further documents and another
/// limit. `--review` is required.
pub fn review_rows_stand()
    ensures alone { IsTakenAs review_words (review two_files 10000000) }
    ensures all { IsTakenAs review_all_words (review four_files 896) }
    ensures none { AreWordsRefused without_review }
{}

/// `celbpf list a.img` lists `a.img`.
pub fn list_row_stands()
    ensures { IsTakenAs list_words (list (codes "a.img")) }
{}

/// Each command reads these files, in the order of the words, and has this limit of steps. `compile`
/// and `asm` do not read the image, and options that are left out name no file.
pub fn reading_rows_stand()
    ensures compile { IsRead compile_words (codes "compile") (Some (codes "p.json") ∷ []) 10000000 }
    ensures asm { IsRead asm_words (codes "asm") (Some (codes "a.txt") ∷ []) 10000000 }
    ensures run_image { IsRead (with_steps (codes "5")) (codes "run-image") (Some (codes "a.img") ∷ []) 5 }
    ensures zeros { IsRead (with_steps (codes "+007")) (codes "run-image") (Some (codes "a.img") ∷ []) 7 }
    ensures list { IsRead list_words (codes "list") (Some (codes "a.img") ∷ []) 10000000 }
    ensures debug { IsRead debug_words (codes "debug") (Some (codes "a.img") ∷ None ∷ None ∷ None ∷ []) 10000000 }
    ensures debug_all { let documents = Some (codes "r.json") ∷ Some (codes "n.json") ∷ Some (codes "p.json") ∷ [] in
        IsRead debug_all_words (codes "debug") (Some (codes "a.img") ∷ documents) 10000000 }
    ensures review { let documents = Some (codes "r.json") ∷ None ∷ None ∷ [] in
        IsRead review_words (codes "review") (Some (codes "p.json") ∷ documents) 10000000 }
    ensures review_all { let documents = Some (codes "r.json") ∷ Some (codes "n.json") ∷ Some (codes "q.json") ∷ [] in
        IsRead review_all_words (codes "review") (Some (codes "p.json") ∷ documents) 896 }
{}

//! Logs: what `replay` and `migrate` say of them.
use crate::tests::answers;
use std::test::Fail;

/// The systems, and logs. The digest in them is that of `S.aut`.
const FILES: &str = r#"
S.aut | des (0,3,3)\n(0,"?coin",1)\n(1,"!tea",2)\n(1,"!coffee",2)\n
M.aut | des (0,2,3)\n(0,"?coin",1)\n(1,"!milk",2)\n
E.aut | des (0,0,1)\n
milk.log | torx log 1\nmode ioco\npatience 3\nsteps 2\nsent ?coin\nheard !milk\nend 2 fail\n
twice.log | torx log 1\nmode ioco\npatience 3\nsteps 2\nsent ?coin\nsent ?coin\nend 2 pass\n
empty.log | 
nine.log | torx log 9\n
line.log | torx log 1\nmode ioco\npatience 0\n
named.log | torx log 2\nmode ioco\ndivergence refuse\nspec cd28e582315bdc169c69ae81cdcf753033b788b46c73e861a1af0b43eea818da\npatience 3\nsteps 2\nsent ?coin\nheard !tea\nend 2 pass\n
both.log | torx log 1\nmode ioco\npatience 3\nsteps 2\nsent ?coin\nsent ?coin\nend 2 ended\ntorx log 2\nmode ioco\ndivergence refuse\nspec cd28e582315bdc169c69ae81cdcf753033b788b46c73e861a1af0b43eea818da\npatience 3\nsteps 2\nsent ?coin\nheard !milk\nend 2 pass\n
# another digest and another reading in the second log: its digest is told first
other.log | torx log 1\nmode ioco\npatience 3\nsteps 2\nend 0 ended\ntorx log 2\nmode ioco\ndivergence quiet\nspec 0000000000000000000000000000000000000000000000000000000000000000\npatience 3\nsteps 2\nend 0 pass\n
# failed by its entries, and its ending says otherwise; and the other way round
said-pass.log | torx log 1\nmode ioco\npatience 3\nsteps 2\nsent ?coin\nheard !milk\nend 2 pass\n
said-fail.log | torx log 1\nmode ioco\npatience 3\nsteps 2\nsent ?coin\nheard !tea\nend 2 fail\n
# the failure isn't at the last entry
early.log | torx log 1\nmode ioco\npatience 3\nsteps 2\nheard !milk\ndelta\nend 2 fail\n
"#;

/// Words, text and status.
const JUDGED: &str = r#"
replay S.aut milk.log | fail 2\n | 1
replay S.aut twice.log | off 2\n | 2
replay S.aut empty.log | bad empty.log cut\n | 4
replay S.aut nine.log | bad nine.log version\n | 4
replay S.aut line.log | bad line.log line 3\n | 4
replay S.aut named.log | pass\n | 0
replay S.aut both.log | off 2\nfail 2\n | 1
replay M.aut named.log | bad named.log other-spec 1\n | 4
replay --divergence quiet S.aut named.log | bad named.log other-divergence 1\n | 4
replay S.aut other.log | bad other.log other-spec 2\n | 4
migrate S.aut milk.log | torx log 2\nmode ioco\ndivergence refuse\nspec cd28e582315bdc169c69ae81cdcf753033b788b46c73e861a1af0b43eea818da\npatience 3\nsteps 2\nsent ?coin\nheard !milk\nend 2 fail\n | 0
migrate E.aut milk.log | not-of 1\n | 1
migrate S.aut twice.log | not-of 1\n | 1
migrate S.aut said-pass.log | not-of 1\n | 1
migrate S.aut said-fail.log | not-of 1\n | 1
migrate S.aut early.log | not-of 1\n | 1
migrate S.aut named.log | torx log 2\nmode ioco\ndivergence refuse\nspec cd28e582315bdc169c69ae81cdcf753033b788b46c73e861a1af0b43eea818da\npatience 3\nsteps 2\nsent ?coin\nheard !tea\nend 2 pass\n | 0
migrate M.aut named.log | bad named.log other-spec 1\n | 4
replay S.aut | usage words\n | 3
replay --uioco S.aut milk.log | usage words\n | 3
"#;

#[test]
fn judges_logs(rt: HostRuntime) -> Result<(), Fail> {
    answers(&rt, rt.alloc(), FILES, JUDGED)
}

ghost use Rattle.std.specs.Prelude.{◌≡◌, IfSome, IsSome};
ghost use Rattle.pm_term.specs.Environments.{word_of_name, assigned};

use pm_items::Items;
use pm_wide::{IntType, Wide};

/// Versions with their words. A name is sought by its version and its type, and the first such pair
/// counts.
#[derive(Debug, Drop)]
pub struct Env {
    pub words: Items<(u32, Wide)>,
}

impl Env {
    /// The word of a name, if it has one.
    #[tactic(auto, using(pm_wide::proofs::Results::same_type_is))]
    pub fn word(&self, version: u32, ty: IntType) -> Option<Wide>
        ensures value { result ≡ word_of_name self.now.words version ty }
        ensures typed { IfSome result (λ w. w.ty ≡ ty) }
    {
        for (name, word) in self.words.as_slice() {
            if *name == version && word.ty() == ty {
                return Some(*word);
            }
        }
        None
    }

    /// The word of a name that has one.
    pub(crate) fn assigned(&self, version: u32, ty: IntType) -> Wide
        requires { IsSome (word_of_name self.now.words version ty) }
        ensures value { result ≡ assigned self.now.words version ty }
        ensures typed { result.ty ≡ ty }
    {
        self.word(version, ty).unwrap()
    }
}

//! Theorems about images.
ghost use Rattle.std.specs.Prelude.{◌≡◌, ℕ, List};
ghost use Rattle.synic_board.specs.State.{State};
ghost use Rattle.text_image.specs.Image.{image};
ghost use Rattle.text_restore.specs.Images.{IsImage, FirstWrong};
ghost use Rattle.law_images.specs.States.{IsBoardState};

use synic_board::Board;

/// What a restored board saves is the image that it was restored from, byte for byte.
pub fn a_restored_board_saves_its_image()
    ensures { (text : List ℕ) (s : State) → IsImage text s → text ≡ image s }
{}

/// A text is the image of at most one state.
pub fn an_image_has_one_state()
    ensures { (text : List ℕ) (s t : State) → IsImage text s → IsImage text t → s ≡ t }
{}

/// The image of the state of a board is an image of this state. So `restore` accepts what is saved of
/// a board, and leads back to its state. `a_board_is_restored_from_its_image` says so of every board.
#[tactic(auto, using(crate::proofs::Accepted::accepted))]
pub fn an_image_restores_its_board()
    ensures { (s : State) → IsBoardState s → IsImage (image s) s }
{}

/// The image of a board is an image of its state and of no other, whatever board it is. So a crew on
/// a board (`crew_on`), whose trace begins with its image, starts in its state. Does nothing.
pub fn a_board_is_restored_from_its_image(board: &Board)
    ensures state { IsBoardState board.now.state }
    ensures image { IsImage (image board.now.state) board.now.state }
    ensures only { (s : State) → IsImage (image board.now.state) s → s ≡ board.now.state }
{
    board.facts();
}

/// An image has no wrong line. So `restore` refuses no image.
pub fn an_image_has_no_wrong_line()
    ensures { (text : List ℕ) (s : State) (k : ℕ) → IsImage text s → FirstWrong text k → ⊥ }
{}

//! What is played.
use af_io::Pcm;
use af_script::Script;

/// What is played: a script, the frames of each track's file, the name of the file that gets the sound, and for how many notes its log has room, 0 if none is kept.
#[derive(Clone, Copy, Drop)]
pub struct Piece<'a> {
    pub script: &'a Script,
    pub files: &'a [Pcm],
    pub name: &'a str,
    pub room: u32,
}

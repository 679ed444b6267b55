//! Laws of the pieces of a request in a sound, steady and fitting mesh (g_bio(9)).
ghost use Rattle.geo_laws_bios.specs.PieceLaws.{FirmMeshesLoseNoPiece};

/// Each piece of a request has its consumer, and the pieces follow each other over the whole request.
pub fn firm_meshes_lose_no_piece()
    ensures { FirmMeshesLoseNoPiece }
{}

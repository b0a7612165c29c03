//! What the definitions of a tile say of one another. Each function does nothing: its contract is a law.
ghost use Rattle.std.specs.Prelude.{◌≡◌, ℕ, List, [], None, Some, true, false};
ghost use Rattle.common_laws.specs.First.{first_of, IsFirst};
ghost use Rattle.mesh_codec.specs.declared.header.Header.{Header};
ghost use Rattle.mesh_codec.specs.declared.refusal.TileRefusal.{TileRefusal};
ghost use Rattle.mesh_codec.specs.Number.{AreBytes};
ghost use Rattle.mesh_codec.specs.Mesh.{Mesh, IsMesh, IsEncodable};
ghost use Rattle.mesh_codec.specs.Text.{IsHeader, tile_text};
ghost use Rattle.mesh_codec.specs.Extension.{ExtensionData};
ghost use Rattle.mesh_codec.specs.Padding.{HasZeroPadding};
ghost use Rattle.mesh_codec.specs.Refusal.{conditions_of, is_gzip, tile_refusal_of};
ghost use Rattle.mesh_codec.specs.Tile.{Decodes, header_in, mesh_in, extension_list};

/// Bytes are a tile exactly where they get no refusal, and then of one header, one mesh and one list of
/// extensions: those that are read.
pub fn one_tile()
    ensures accepted { (bytes : List ℕ) → AreBytes bytes → tile_refusal_of bytes ≡ None
        → Decodes bytes (header_in bytes) (mesh_in bytes) (extension_list bytes) }
    ensures unrefused { (bytes : List ℕ) (header : Header) (mesh : Mesh) (extensions : List ExtensionData)
        → Decodes bytes header mesh extensions → tile_refusal_of bytes ≡ None }
    ensures header { (bytes : List ℕ) (header : Header) (mesh : Mesh) (extensions : List ExtensionData)
        → Decodes bytes header mesh extensions → header ≡ header_in bytes }
    ensures mesh { (bytes : List ℕ) (header : Header) (mesh : Mesh) (extensions : List ExtensionData)
        → Decodes bytes header mesh extensions → mesh ≡ mesh_in bytes }
    ensures extensions { (bytes : List ℕ) (header : Header) (mesh : Mesh) (extensions : List ExtensionData)
        → Decodes bytes header mesh extensions → extensions ≡ extension_list bytes }
{}

/// Bytes get a refusal exactly where its condition holds and none before it does. Where they begin as a gzip
/// file does, they get `Compressed` in its place.
pub fn first_refusal()
    ensures found { (bytes : List ℕ) (refusal : TileRefusal) → first_of (conditions_of bytes) ≡ Some refusal
        → IsFirst (conditions_of bytes) refusal }
    ensures only { (bytes : List ℕ) (refusal : TileRefusal) → IsFirst (conditions_of bytes) refusal
        → first_of (conditions_of bytes) ≡ Some refusal }
    ensures plain { (bytes : List ℕ) → is_gzip bytes ≡ false → tile_refusal_of bytes ≡ first_of (conditions_of bytes) }
    ensures compressed { (bytes : List ℕ) (refusal : TileRefusal) → is_gzip bytes ≡ true
        → first_of (conditions_of bytes) ≡ Some refusal → tile_refusal_of bytes ≡ Some TileRefusal.Compressed }
{}

/// The spelling of a header and a mesh decodes to them, without an extension.
pub fn text_decodes()
    ensures { (header : Header) (mesh : Mesh) → IsHeader header → IsMesh mesh → IsEncodable mesh
        → Decodes (tile_text header mesh) header mesh [] }
{}

/// The spelling of a header and a mesh has padding of zeros, and no other bytes with padding of zeros and without
/// an extension decode to them.
pub fn one_text()
    ensures zeros { (header : Header) (mesh : Mesh) → IsHeader header → IsMesh mesh → IsEncodable mesh
        → HasZeroPadding (tile_text header mesh) }
    ensures only { (bytes : List ℕ) (header : Header) (mesh : Mesh) → AreBytes bytes → Decodes bytes header mesh []
        → HasZeroPadding bytes → bytes ≡ tile_text header mesh }
{}

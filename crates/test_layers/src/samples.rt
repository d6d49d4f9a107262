//! The texts of function files and certificates, as `examples/` has them.

/// Insertions whose ties are broken by sites: it has TP1.
pub const INS_OT: &str = "otfn 1\n\
     text plain\n\
     kinds ins\n\
     assume sites differ\n\
     block ins ins\n\
     case p1 < p2 : ins p1\n\
     case p1 = p2 and s1 < s2 : ins p1\n\
     case true : ins p1 + 1\n\
     end\n";

/// One case, which takes almost every pair.
pub const FAR_OT: &str =
    "otfn 1\ntext plain\nkinds ins\nblock ins ins\ncase p1 <= p2 + 99 : ins p1\nend\n";

/// Insertions and deletions on plain text.
pub const SITES_OT: &str = "otfn 1\n\
     text plain\n\
     kinds ins del\n\
     assume sites differ\n\
     block ins ins\n\
     case p1 < p2 : ins p1\n\
     case p1 = p2 and s1 < s2 : ins p1\n\
     case true : ins p1 + 1\n\
     block ins del\n\
     case p1 <= p2 : ins p1\n\
     case true : ins p1 - 1\n\
     block del ins\n\
     case p1 < p2 : del p1\n\
     case true : del p1 + 1\n\
     block del del\n\
     case p1 < p2 : del p1\n\
     case p2 < p1 : del p1 - 1\n\
     case true : nop\n\
     end\n";

/// Insertions and deletions on text with tombstones.
pub const TTF_OT: &str = "otfn 1\n\
     text tomb\n\
     kinds ins del\n\
     assume sites differ\n\
     block ins ins\n\
     case p1 < p2 : ins p1\n\
     case p1 = p2 and s1 < s2 : ins p1\n\
     case true : ins p1 + 1\n\
     block ins del\n\
     case true : ins p1\n\
     block del ins\n\
     case p1 < p2 : del p1\n\
     case true : del p1 + 1\n\
     block del del\n\
     case true : del p1\n\
     end\n";

/// Deletions that leave tombstones and stay where they are.
pub const MARKS_OT: &str = "otfn 1\ntext tomb\nkinds del\nblock del del\ncase true : del p1\nend\n";

/// Updates of which the last one wins.
pub const LAST_OT: &str = "otfn 2\ntext plain\nkinds upd\nblock upd upd\ncase true : upd p1\nend\n";

/// A certificate of `MARKS_OT` at level tp1.
pub const MARKS_CERT: &str = "otcert 1 tp1\n\
     ob del del\n\
     ???????????????.x11,14;x12,13;??x12,14;??.x11,16;x13,15;?x13,14;?x13,15;?.x11,16;????x11,15;?.x12,16\
     ;x13,14;??x13,15;??x11,17;?.x12,18;x14,16;?x14,15;?x14,16;?x11,17;?.x12,18;???x12,15;?x12,16;.x13,14\
     ;??x13,15;??x12,17;?x12,18;.x14,16;?x14,15;?x14,16;?x12,17;?x12,18;...x2,8;x1,7;x4,6;x3,5;.....\n\
     end\n";

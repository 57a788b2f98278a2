//! What the lengths of contacts count, square by square.
ghost use Rattle.rect_contacts.specs.EdgeLaws.{SquaresAreCovered, AreaCountsSquares, SharedLengthCountsEdges, PerimeterLeadsOut};
ghost use Rattle.rect_contacts.specs.EdgeLaws.{PerimeterIsOpenOrShared, ContactsCountBothWays};

/// Does nothing: its contract says that areas of rectangles count squares, that lengths of their edges, shared
/// or not, count edges of squares, and what a sum over contacts counts. So a shape made of disjoint rectangles
/// has the sum of their areas as its area, and the sum of their perimeters, less twice the lengths that they
/// share, as its perimeter.
pub fn lengths_count_edges()
    ensures squares { SquaresAreCovered }
    ensures area { AreaCountsSquares }
    ensures shared { SharedLengthCountsEdges }
    ensures alone { PerimeterLeadsOut }
    ensures among_others { PerimeterIsOpenOrShared }
    ensures contacts { ContactsCountBothWays }
{}
